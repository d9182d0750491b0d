// The lines of a script that carry frames: one frame, or a sheet of them.
ghost use Rattle.std.specs.Prelude.{◌≡◌, ◌≢◌, ◌∷◌, ℕ, List, MatchOption, IfOk};
ghost use Rattle.wire.specs.declared.code.Code.TheVariants.{Ascii};
ghost use Rattle.bench.specs.Quoted.{Quoted};

use crate::cutting::{Words, split_once};
use crate::expected::Expected;
use crate::line::Line;
use crate::numbers::{read_number, read_space};
use crate::parts::{read_code, read_hex};
use std::alloc::Global;
use wire::Code;

// ascii 4096 HEX, or ascii 4096 "TEXT", or binary 4096 HEX
pub fn read_frame(heap: Global, mut words: Words<'_>) -> Result<Line, Expected> {
    let code = read_code(words.next())?;
    let space = read_space(words.next())?;
    let bytes = read_content(heap, code, words)?;
    Ok(Line::Frame { code, space, bytes })
}

// ascii 5 4096 HEX, or binary ..
pub fn read_run(heap: Global, mut words: Words<'_>) -> Result<Line, Expected> {
    let code = read_code(words.next())?;
    let cancel = read_number(words.next())? as usize;
    let space = read_space(words.next())?;
    let sheet = read_last_hex(heap, words)?;
    Ok(Line::Run {
        code,
        cancel,
        space,
        sheet,
    })
}

// Bytes in hexadecimal digits, behind which nothing stands.
fn read_last_hex(heap: Global, mut words: Words<'_>) -> Result<Vec<u8>, Expected> {
    let digits = words.next();
    words.ended()?;
    read_hex(heap, digits)
}

// What stands behind an opening quotation mark, which a frame in ASCII alone may have.
fn opened(code: Code, rest: &[u8]) -> Option<&[u8]>
    ensures { MatchOption result (code ≡ Ascii → (text : List ℕ) → rest.now ≢ 34 ∷ text) (λ text. (code ≡ Ascii) × (rest.now ≡ 34 ∷ text.now)) }
{
    match (code, rest) {
        (Code::Ascii, [b'"', text @ ..]) => Some(text),
        _ => None,
    }
}

// The bytes of a frame: in digits, or in ASCII also as a text between quotation marks.
fn read_content(heap: Global, code: Code, words: Words<'_>) -> Result<Vec<u8>, Expected> {
    match opened(code, words.rest()) {
        Some(text) => read_quoted(heap, text),
        None => read_last_hex(heap, words),
    }
}

// A text up to its closing quotation mark, behind which nothing stands.
fn read_quoted(heap: Global, text: &[u8]) -> Result<Vec<u8>, Expected>
    ensures { IfOk result (λ bytes. Quoted text.now bytes.items) }
{
    let (quoted, behind) = split_once(text, b'"').ok_or(Expected::Quote)?;
    Words::new(behind).ended()?;
    let bytes = Vec::from_slice(heap, quoted)?;
    Ok(bytes)
}
