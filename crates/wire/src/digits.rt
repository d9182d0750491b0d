// Digits as characters: '0' to '9', and in hexadecimal 'A' to 'F' too.
ghost use Rattle.std.specs.Prelude.{◌≡◌, ◌+◌, ◌*◌, ◌/◌, ◌%◌, ◌^◌, ◌<◌, ◌≤◌};
ghost use Rattle.std.specs.Option.{unwrap_or};
ghost use Rattle.wire.specs.Numbers.{base, digit_of, hex_value, hex_char};

use crate::code::FieldFault;
use device::Notation;

// What the table of digits has for a byte that is no digit: it is below no base.
pub const NO_DIGIT: u8 = 16;

// The digit that each byte stands for in hexadecimal, in rows of sixteen bytes.
static DIGITS: [u8; 256] = *b"\
    \x10\x10\x10\x10\x10\x10\x10\x10\x10\x10\x10\x10\x10\x10\x10\x10\
    \x10\x10\x10\x10\x10\x10\x10\x10\x10\x10\x10\x10\x10\x10\x10\x10\
    \x10\x10\x10\x10\x10\x10\x10\x10\x10\x10\x10\x10\x10\x10\x10\x10\
    \x00\x01\x02\x03\x04\x05\x06\x07\x08\x09\x10\x10\x10\x10\x10\x10\
    \x10\x0A\x0B\x0C\x0D\x0E\x0F\x10\x10\x10\x10\x10\x10\x10\x10\x10\
    \x10\x10\x10\x10\x10\x10\x10\x10\x10\x10\x10\x10\x10\x10\x10\x10\
    \x10\x10\x10\x10\x10\x10\x10\x10\x10\x10\x10\x10\x10\x10\x10\x10\
    \x10\x10\x10\x10\x10\x10\x10\x10\x10\x10\x10\x10\x10\x10\x10\x10\
    \x10\x10\x10\x10\x10\x10\x10\x10\x10\x10\x10\x10\x10\x10\x10\x10\
    \x10\x10\x10\x10\x10\x10\x10\x10\x10\x10\x10\x10\x10\x10\x10\x10\
    \x10\x10\x10\x10\x10\x10\x10\x10\x10\x10\x10\x10\x10\x10\x10\x10\
    \x10\x10\x10\x10\x10\x10\x10\x10\x10\x10\x10\x10\x10\x10\x10\x10\
    \x10\x10\x10\x10\x10\x10\x10\x10\x10\x10\x10\x10\x10\x10\x10\x10\
    \x10\x10\x10\x10\x10\x10\x10\x10\x10\x10\x10\x10\x10\x10\x10\x10\
    \x10\x10\x10\x10\x10\x10\x10\x10\x10\x10\x10\x10\x10\x10\x10\x10\
    \x10\x10\x10\x10\x10\x10\x10\x10\x10\x10\x10\x10\x10\x10\x10\x10";

// The characters of the digits.
static CHARACTERS: [u8; 16] = *b"0123456789ABCDEF";

// The digit that a byte stands for; any other byte is a fault at its place.
// Matched by characters and ranges, as the rules list them; `to_digit` would take small letters too.
pub fn digit(notation: Notation, byte: u8, place: u8) -> Result<u8, FieldFault>
    ensures { result ≡ digit_of notation place byte }
{
    match (char::from(byte), notation) {
        ('0'..='9', _) => Ok(byte - b'0'),
        ('A'..='F', Notation::Hexadecimal) => Ok(byte - b'A' + 10),
        _ => Err(FieldFault::Digit(place)),
    }
}

// The digit that a byte stands for in hexadecimal, and `NO_DIGIT` if it stands for none. By a table, so that nothing branches on the byte.
pub fn table_digit(byte: u8) -> u8
    ensures { result ≡ unwrap_or (hex_value byte) NO_DIGIT }
{
    DIGITS[usize::from(byte)]
}

// The hexadecimal digit that a byte stands for, if it does.
pub fn read_digit(byte: u8) -> Option<u8>
    ensures { result ≡ hex_value byte }
{
    digit(Notation::Hexadecimal, byte, 0).ok()
}

// The character of a digit.
// Not by `from_digit`, which gives small letters.
pub fn hex_char(digit: u8) -> u8
    requires { digit < 16 }
    ensures { result ≡ hex_char digit }
{
    CHARACTERS[usize::from(digit)]
}

// How many digits a notation has.
pub fn base(notation: Notation) -> u32
    ensures value { result ≡ base notation }
    ensures bounds { (0 < result) × (result ≤ 16) }
{
    match notation {
        Notation::Decimal => 10,
        Notation::Hexadecimal => 16,
    }
}

// The number with one more digit behind it, in any base.
pub fn with_digit(base: u32, value: u32, digit: u8) -> u32
    requires { value * base + digit < 2 ^ 32 }
    ensures { result ≡ value * base + digit }
{
    value * base + u32::from(digit)
}

// The number's lowest digit.
pub fn low_digit(base: u32, value: u32) -> u8
    requires { (0 < base) × (base ≤ 256) }
    ensures value { result ≡ value % base }
    ensures below { result < base }
{
    (value % base) as u8
}

// The number without its lowest digit.
pub fn higher_digits(base: u32, value: u32) -> u32
    requires { 0 < base }
    ensures { result ≡ value / base }
{
    value / base
}
