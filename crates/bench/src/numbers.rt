// Decimal numbers of a script. Read by hand: `from_str_radix` takes a plus sign too, and a str, while a script is bytes.
ghost use Rattle.std.specs.Prelude.{◌≡◌, Some, None, MatchResult};
ghost use Rattle.std.specs.Option.{ok_or};
ghost use Rattle.bench.specs.Decimals.{with_digit, with_digits, decimal_in, decimal_up_to};
ghost use Rattle.bench.specs.declared.expected.Expected.TheVariants.{Number, Value, Space};

use crate::expected::Expected;
use crate::size::SpaceSize;

// The number with one more decimal digit behind it; none where it grows too large, or where the character is no digit.
fn with_digit(value: u32, character: u8) -> Option<u32>
    ensures { result ≡ with_digit value character }
{
    match character {
        b'0'..=b'9' => value
            .checked_mul(10)?
            .checked_add(u32::from(character - b'0')),
        _ => None,
    }
}

// The number with digits behind it.
fn with_digits(word: &[u8]) -> Option<u32>
    ensures { result ≡ with_digits 0 word.now }
{
    let mut value = 0;
    for character in word {
        value = with_digit(value, *character)?;
    }
    Some(value)
}

// The number of a run of decimal digits, of which there is at least one.
fn decimal(word: &[u8]) -> Option<u32>
    ensures { result ≡ decimal_in word.now }
{
    match word {
        [] => None,
        _ => with_digits(word),
    }
}

// A number below 2^32.
pub fn read_number(word: &[u8]) -> Result<u32, Expected>
    ensures { result ≡ ok_or (decimal_in word.now) Number }
{
    decimal(word).ok_or(Expected::Number)
}

// The value of a point.
pub fn read_value(word: &[u8]) -> Result<u16, Expected>
    ensures { result ≡ ok_or (decimal_up_to 65535 word.now) Value }
{
    decimal(word)
        .and_then(|value| u16::try_from(value).ok())
        .ok_or(Expected::Value)
}

// The size of a reply space.
pub fn read_space(word: &[u8]) -> Result<SpaceSize, Expected>
    ensures { MatchResult result (λ s. decimal_up_to 65536 word.now ≡ Some s.bytes) (λ e. (e ≡ Space) × (decimal_up_to 65536 word.now ≡ None)) }
{
    // A guard and no filter: the size's own fact is proved from it.
    match decimal(word) {
        Some(bytes) if bytes <= 65536 => Ok(SpaceSize {
            bytes: bytes as usize,
        }),
        _ => Err(Expected::Space),
    }
}
