// The records of a sheet: a length of two bytes, the high byte first, and then one request frame.
ghost use Rattle.std.specs.Prelude.{◌≡◌, ◌+◌, ◌^◌, ◌<◌, ◌≤◌, length, IfSome, IfOk};
ghost use Rattle.sheet.specs.Records.{record_size, frame_alone, tested_record};

use frame::{Cause, Fault, read_header};
use wire::Code;

// The length that the record at `at` says, if the record is all there.
fn record_size(sheet: &[u8], at: usize) -> Option<usize>
    requires { at ≤ length sheet.now }
    ensures value { result ≡ record_size sheet.now at }
    ensures within { IfSome result (λ size. at + 2 + size ≤ length sheet.now) }
{
    let [high, low, rest @ ..] = &sheet[at..] else {
        return None;
    };
    let size = usize::from(u16::from_be_bytes([*high, *low]));
    (size <= rest.len()).then_some(size)
}

// The length of the record at `at`, if no bytes stand after its frame of `frame_size` bytes.
fn frame_alone(at: usize, size: usize, frame_size: usize) -> Result<usize, Fault>
    requires { at + 2 + size < 2 ^ 64 }
    ensures value { result ≡ frame_alone at size frame_size }
    ensures same { IfOk result (λ n. n ≡ size) }
{
    if frame_size < size {
        return Err(Cause::BadRecord.at(at + 2 + frame_size));
    }
    Ok(size)
}

// Tests the record at `at`, and answers its length: it is all there, and holds a frame that passes its tests and nothing else.
pub(crate) fn test_record(code: Code, sheet: &[u8], at: usize, space: usize) -> Result<usize, Fault>
    requires { at ≤ length sheet.now }
    ensures value { result ≡ tested_record code space sheet.now at }
    ensures within { IfOk result (λ size. at + 2 + size ≤ length sheet.now) }
{
    let size = record_size(sheet, at).ok_or(Cause::BadRecord.at(at))?;
    let front = at + 2;
    let header = read_header(code, &sheet[front..front + size], space)?;
    frame_alone(at, size, header.size)
}
