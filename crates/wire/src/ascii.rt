// The ASCII code: two hexadecimal digits for a byte, the highest first.
ghost use Rattle.std.specs.Prelude.{◌≡◌, ◌+◌, ◌*◌, ◌^◌, ◌<◌, ◌≤◌, length, drop, IfOk, IfSome, refl};
ghost use Rattle.std.specs.Result.{result_ok};
ghost use Rattle.std.proofs.lemmas.List.Edits.{sets};
ghost use Rattle.device.specs.Devices.{symbol_of, notation_of};
ghost use Rattle.device.specs.declared.types.Notation.TheVariants.{Hexadecimal};
ghost use Rattle.wire.specs.declared.code.Code.{Code};
ghost use Rattle.wire.specs.Numbers.{digit_of, digits_run, hex_char, digit_chars};

use crate::code::{FieldFault, WireCode};
use crate::digits::{
    NO_DIGIT, base, digit, hex_char, higher_digits, low_digit, table_digit, with_digit,
};
use device::{Device, Notation, by_symbol};

pub struct Ascii;

// The digits of `size` bytes from `at` on, the highest first, one by one.
// It finds the first byte that is no digit, and is called where there is one: only then is the place wanted.
#[cold]
#[inline(never)]
fn read_each_digit(
    notation: Notation,
    bytes: &[u8],
    at: usize,
    size: usize,
) -> Result<u32, FieldFault>
    requires { (size ≤ 4) × ((at ≤ 8) × (at + size * 2 ≤ length bytes.now)) }
    ensures value { result ≡ digits_run notation (size * 2) at 0 (drop at bytes.now) }
    ensures below { IfOk result (λ v. v < 256 ^ size) }
{
    let count = Ascii::field_size(size);
    let base = base(notation);
    let mut value: u32 = 0;
    for (i, byte) in bytes[at..at + count].iter().enumerate() {
        let digit = digit(notation, *byte, (at + i) as u8)?;
        value = with_digit(base, value, digit);
    }
    Ok(value)
}

// The same number where every byte is a digit, and none where one is not.
// Every byte is looked up and none is tested on the way: nearly all that come are digits, and which ones they are no branch could guess.
// Behind a byte that is no digit the number may wrap, and is not used.
// It is inlined, as `read_digits` and `write_digits` are, so that the base is known where its code is made: no digit is then multiplied or divided by a variable.
#[inline(always)]
fn read_good_digits(notation: Notation, bytes: &[u8], at: usize, size: usize) -> Option<u32>
    requires { (size ≤ 4) × (at + size * 2 ≤ length bytes.now) }
    ensures value { result ≡ result_ok (digits_run notation (size * 2) at 0 (drop at bytes.now)) }
    ensures below { IfSome result (λ v. v < 256 ^ size) }
{
    let count = Ascii::field_size(size);
    let base = base(notation);
    let mut value: u32 = 0;
    let mut good = true;
    for byte in &bytes[at..at + count] {
        let digit = u32::from(table_digit(*byte));
        good &= digit < base;
        value = value.wrapping_mul(base).wrapping_add(digit);
    }
    if good { Some(value) } else { None }
}

// The digits of `size` bytes from `at` on, the highest first.
#[inline(always)]
fn read_digits(notation: Notation, bytes: &[u8], at: usize, size: usize) -> Result<u32, FieldFault>
    requires { (size ≤ 4) × ((at ≤ 8) × (at + size * 2 ≤ length bytes.now)) }
    ensures value { result ≡ digits_run notation (size * 2) at 0 (drop at bytes.now) }
    ensures below { IfOk result (λ v. v < 256 ^ size) }
{
    match read_good_digits(notation, bytes, at, size) {
        Some(value) => Ok(value),
        None => read_each_digit(notation, bytes, at, size),
    }
}

// Writes the number's lowest digits, two for each of `size` bytes, from `at` on, the highest first.
#[inline(always)]
fn write_digits(notation: Notation, out: &mut [u8], at: usize, size: usize, value: u32)
    requires { (size ≤ 4) × (at + size * 2 ≤ length out.old) }
    ensures { out.new ≡ sets out.old at (digit_chars notation (size * 2) value) }
{
    let count = Ascii::field_size(size);
    let base = base(notation);
    let mut rest = value;
    // by index: what an `iter_mut` that runs backwards leaves has no proof, and a `reverse` behind would write each place twice
    for i in (0..count).rev() {
        out[at + i] = hex_char(low_digit(base, rest));
        rest = higher_digits(base, rest);
    }
}

// Writes the two characters of a device's symbol.
fn write_symbol(out: &mut [u8], at: usize, device: Device)
    requires { at + 2 ≤ length out.old }
    ensures { out.new ≡ sets out.old at (symbol_of device) }
{
    out[at..at + 2].copy_from_slice(&device.symbol());
}

// Writes the number of a device's field behind the symbol.
fn write_device_number(out: &mut [u8], at: usize, device: Device, number: u32)
    requires { at + 8 ≤ length out.old }
    ensures { out.new ≡ sets out.old (at + 2) (digit_chars (notation_of device) 6 number) }
{
    // each notation by its name, so that `write_digits` is made for each
    match device.notation() {
        Notation::Decimal => write_digits(Notation::Decimal, out, at + 2, 3, number),
        Notation::Hexadecimal => write_digits(Notation::Hexadecimal, out, at + 2, 3, number),
    }
}

// The character of a point in bits: '0' or '1', for which no table is asked.
fn bit_char(value: u16) -> u8
    requires { value < 2 }
    ensures { result ≡ hex_char value }
{
    b'0' + value as u8
}

// A hexadecimal digit that stands alone, by the table; where it is none, `digit` tells the fault.
fn read_hex_digit(byte: u8, place: u8) -> Result<u8, FieldFault>
    ensures { result ≡ digit_of Hexadecimal place byte }
{
    let value = table_digit(byte);
    if value < NO_DIGIT {
        Ok(value)
    } else {
        digit(Notation::Hexadecimal, byte, place)
    }
}

impl WireCode for Ascii {
    const WIRE_BYTES: usize = 2;

    ghost WIRE_BYTES = { 2 };

    ghost which = { Code.Ascii };

    ghost each = { refl };

    fn read_value(bytes: &[u8], size: usize) -> Result<u32, FieldFault> {
        read_digits(Notation::Hexadecimal, bytes, 0, size)
    }

    fn write_value(out: &mut [u8], at: usize, size: usize, value: u32) {
        write_digits(Notation::Hexadecimal, out, at, size, value);
    }

    fn read_name(bytes: &[u8]) -> Result<Device, FieldFault> {
        by_symbol(bytes[0], bytes[1]).ok_or(FieldFault::Unknown)
    }

    fn read_device_number(bytes: &[u8], device: Device) -> Result<u32, FieldFault> {
        // each notation by its name, so that `read_digits` is made for each
        match device.notation() {
            Notation::Decimal => read_digits(Notation::Decimal, bytes, 2, 3),
            Notation::Hexadecimal => read_digits(Notation::Hexadecimal, bytes, 2, 3),
        }
    }

    fn write_device_field(out: &mut [u8], at: usize, device: Device, number: u32) {
        write_symbol(out, at, device);
        write_device_number(out, at, device, number);
    }

    fn bits_size(points: usize) -> usize {
        points
    }

    fn write_two_bits(out: &mut [u8], at: usize, first: u16, second: u16) -> usize {
        out[at] = bit_char(first);
        out[at + 1] = bit_char(second);
        2
    }

    fn write_last_bit(out: &mut [u8], at: usize, value: u16) -> usize {
        out[at] = bit_char(value);
        1
    }

    fn read_half(bytes: &[u8], index: usize) -> Result<u8, FieldFault> {
        read_hex_digit(bytes[index], 0)
    }

    fn is_filled(_bytes: &[u8], _points: usize) -> bool {
        true
    }
}
