// Bytes and words as hexadecimal digits, and back.
ghost use Rattle.std.specs.Prelude.{◌≡◌, ◌≢◌, ◌<◌, [], ◌∷◌, ◌++◌, IfSome, IfOk, Some, None, string_bytes, MatchResult, OnOk};
ghost use Rattle.wire.specs.Numbers.{hex_char};
ghost use Rattle.bench.specs.Hex.{digit_value, byte_value, bytes_in, pairs, words_in, byte_text, bytes_text, halves};
ghost use Rattle.bench.specs.declared.expected.Expected.TheVariants.{Memory};

use crate::expected::Expected;
use std::alloc::{AllocError, Global};
use wire::{hex_char, read_digit};

// The digit that a character of either case stands for, if it does.
fn digit(character: u8) -> Option<u8>
    ensures value { result ≡ digit_value character }
    ensures below { IfSome result (λ d. d < 16) }
{
    match character {
        b'a'..=b'f' => Some(character - b'a' + 10),
        _ => read_digit(character),
    }
}

// The byte of two digits.
fn byte_of(high: u8, low: u8) -> Option<u8>
    ensures { result ≡ byte_value high low }
{
    Some(16 * digit(high)? + digit(low)?)
}

// The bytes of a run of digits, two a byte.
pub fn read_bytes(heap: Global, text: &[u8]) -> Result<Vec<u8>, Expected>
    ensures { MatchResult result (λ v. bytes_in text.now ≡ Some v.items) (λ e. e ≢ Memory → bytes_in text.now ≡ None) }
{
    if text.len() % 2 == 1 {
        return Err(Expected::Hex);
    }
    let mut bytes = Vec::new(heap);
    let mut rest = text;
    // By pattern: what is left of the text is what the proof speaks of.
    while let [high, low, behind @ ..] = rest {
        let byte = byte_of(*high, *low).ok_or(Expected::Hex)?;
        bytes.push(byte)?;
        rest = behind;
    }
    match rest {
        [] => Ok(bytes),
        _ => Err(Expected::Hex),
    }
}

// The words of bytes, two a word, the high one first.
fn paired(heap: Global, bytes: &[u8]) -> Result<Vec<u16>, Expected>
    ensures { MatchResult result (λ v. pairs bytes.now ≡ Some v.items) (λ e. e ≢ Memory → pairs bytes.now ≡ None) }
{
    let mut words = Vec::new(heap);
    let mut rest = bytes;
    // By pattern, as the bytes above.
    while let [high, low, behind @ ..] = rest {
        words.push(u16::from_be_bytes([*high, *low]))?;
        rest = behind;
    }
    match rest {
        [] => Ok(words),
        _ => Err(Expected::Words),
    }
}

// The words of a run of digits, four a word, the highest first.
pub fn read_words(heap: Global, text: &[u8]) -> Result<Vec<u16>, Expected>
    ensures { MatchResult result (λ v. words_in text.now ≡ Some v.items) (λ e. e ≢ Memory → words_in text.now ≡ None) }
{
    let bytes = read_bytes(heap, text)?;
    paired(heap, bytes.as_slice())
}

// Adds a digit to a text.
fn push_digit(text: &mut String, digit: u8) -> Result<(), AllocError>
    requires { digit < 16 }
    ensures { OnOk result (string_bytes text.new ≡ string_bytes text.old ++ hex_char digit ∷ []) }
{
    text.push(hex_char(digit) as char)?;
    Ok(())
}

// Adds the two digits of a byte to a text.
fn push_byte(text: &mut String, byte: u8) -> Result<(), AllocError>
    ensures { OnOk result (string_bytes text.new ≡ string_bytes text.old ++ byte_text byte) }
{
    push_digit(text, byte / 16)?;
    push_digit(text, byte % 16)?;
    Ok(())
}

// The digits of the bytes, two a byte; they read as the bytes.
pub fn bytes_text(heap: Global, bytes: &[u8]) -> Result<String, AllocError>
    ensures text { IfOk result (λ s. string_bytes s ≡ bytes_text bytes.now) }
    ensures back { IfOk result (λ s. bytes_in (string_bytes s) ≡ Some bytes.now) }
{
    let mut text = String::new(heap);
    for byte in bytes {
        push_byte(&mut text, *byte)?;
    }
    Ok(text)
}

// Adds the four digits of a word to a text.
fn push_word(text: &mut String, word: u16) -> Result<(), AllocError>
    ensures { OnOk result (string_bytes text.new ≡ string_bytes text.old ++ bytes_text (halves (word ∷ []))) }
{
    // By division, as the definition has it.
    push_byte(text, (word / 256) as u8)?;
    push_byte(text, (word % 256) as u8)?;
    Ok(())
}

// The digits of the words, four a word, the highest first.
// One function for bytes and words would take the text of a unit as one more argument, and its contract would say less than the two.
pub fn words_text(heap: Global, words: &[u16]) -> Result<String, AllocError>
    ensures { IfOk result (λ s. string_bytes s ≡ bytes_text (halves words.now)) }
{
    let mut text = String::new(heap);
    for word in words {
        push_word(&mut text, *word)?;
    }
    Ok(text)
}
