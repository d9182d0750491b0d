// The parts that several lines of a script have.
ghost use Rattle.std.specs.Prelude.{◌≡◌, Some, None, MatchOption, MatchResult, option_and_then, ◌≢◌};
ghost use Rattle.std.specs.Option.{ok_or};
ghost use Rattle.bench.specs.Symbols.{named_device};
ghost use Rattle.bench.specs.Names.{code_text};
ghost use Rattle.bench.specs.Hex.{bytes_in, words_in, digits_of};
ghost use Rattle.bench.specs.declared.expected.Expected.TheVariants.{Symbol, Code as NoCode, Memory};

use crate::cutting::Words;
use crate::expected::Expected;
use crate::hex::{read_bytes, read_words};
use crate::numbers::read_number;
use crate::words::Point;
use device::{Device, by_symbol};
use std::alloc::Global;
use wire::Code;

// The device of a symbol without star, if there is one.
fn device_named(word: &[u8]) -> Option<Device>
    ensures { result ≡ named_device word.now }
{
    match word {
        [first] => by_symbol(*first, b'*'),
        [first, second] if *second != b'*' => by_symbol(*first, *second),
        _ => None,
    }
}

pub fn read_symbol(word: &[u8]) -> Result<Device, Expected>
    ensures { result ≡ ok_or (named_device word.now) Symbol }
{
    device_named(word).ok_or(Expected::Symbol)
}

// D 3
pub fn read_point(words: &mut Words<'_>) -> Result<Point, Expected> {
    Ok(Point {
        device: read_symbol(words.next())?,
        number: read_number(words.next())?,
    })
}

// ascii, or binary
pub fn read_code(word: &[u8]) -> Result<Code, Expected>
    ensures { MatchResult result (λ code. word.now ≡ code_text code) (λ e. (e ≡ NoCode) × ((code : Code) → word.now ≢ code_text code)) }
{
    match word {
        b"ascii" => Ok(Code::Ascii),
        b"binary" => Ok(Code::Binary),
        _ => Err(Expected::Code),
    }
}

// The digits of a word, with - for none; an empty word says nothing.
fn digits_of(word: &[u8]) -> Option<&[u8]>
    ensures { MatchOption result (digits_of word.now ≡ None) (λ digits. digits_of word.now ≡ Some digits.now) }
{
    match word {
        [] => None,
        b"-" => Some(&[]),
        _ => Some(word),
    }
}

// Bytes in hexadecimal digits, with - for none.
pub fn read_hex(heap: Global, word: &[u8]) -> Result<Vec<u8>, Expected>
    ensures { MatchResult result (λ v. option_and_then bytes_in (digits_of word.now) ≡ Some v.items) (λ e. e ≢ Memory → option_and_then bytes_in (digits_of word.now) ≡ None) }
{
    read_bytes(heap, digits_of(word).ok_or(Expected::Hex)?)
}

// Words in hexadecimal digits, with - for none.
pub fn read_hex_words(heap: Global, word: &[u8]) -> Result<Vec<u16>, Expected>
    ensures { MatchResult result (λ v. option_and_then words_in (digits_of word.now) ≡ Some v.items) (λ e. e ≢ Memory → option_and_then words_in (digits_of word.now) ≡ None) }
{
    read_words(heap, digits_of(word).ok_or(Expected::Words)?)
}
