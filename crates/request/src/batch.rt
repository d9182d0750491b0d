// Batches: so many points or words from one number on.
// What holds of every request that was read stands in the clauses `whole` and `stands` of each reader: it speaks of the frame and the code too,
// and an enum has no ghost field for it.
ghost use Rattle.std.specs.Prelude.{◌≡◌, ◌+◌, ◌*◌, ◌^◌, ◌<◌, ◌≤◌, length, drop, IfOk, IfErr, OnOk, Err};
ghost use Rattle.wire.specs.Numbers.{number_in};
ghost use Rattle.wire.specs.Points.{bits_size, half_in};
ghost use Rattle.request.specs.Fields.{placed, value_at, half_at, list_end, list_in, bits_in};
ghost use Rattle.request.specs.Limits.{all_bits};
ghost use Rattle.request.specs.Rows.{IsBitRow, IsWordRow};
ghost use Rattle.request.specs.Requests.{ReadBits, ReadWords, WriteBits, WriteWords};
ghost use Rattle.request.specs.Judging.{judged};
ghost use Rattle.request.specs.Readings.{held, said, Whole, Stands};

use crate::entries::bit_at;
use crate::fields::{self, Place};
use crate::spans::{open, points_of, within};
use crate::types::Request;
use device::{Device, Kind};
use frame::{Cause, Fault};
use memory::{ReadableMemory, WritableMemory};
use wire::WireCode;

// The row of a batch in bits: the device, the first number, how many points, and where what follows them begins.
fn bit_row<'a, C: WireCode, M: ReadableMemory>(
    memory: &M,
    place: Place<'a>,
) -> Result<(Device, u32, usize, Place<'a>), Fault>
    ensures row { IfOk result (λ r. IsBitRow C.WireCode.which (M.ReadableMemory.means memory.now) place.entry.frame.now place.entry.at (r.0, r.1, r.2, r.3.at)) }
    ensures few { IfOk result (λ r. (r.1 < 2 ^ 24) × (r.2 ≤ 3584) × (r.3.frame.now ≡ place.entry.frame.now)) }
    ensures declined { IfErr result (λ e. (judged C.WireCode.which (M.ReadableMemory.means memory.now) ReadBits place.entry.frame.now place.entry.at ≡ Err e) × (judged C.WireCode.which (M.ReadableMemory.means memory.now) WriteBits place.entry.frame.now place.entry.at ≡ Err e)) }
{
    let (device, number, used) = place.device::<C>()?;
    if device.kind() != Kind::Bit {
        return Err(Cause::WrongKind.at(place.at));
    }
    let count = place.on(used);
    let (points, used) = count.number::<C>(2)?;
    if !(1..=3584).contains(&points) {
        return Err(Cause::BitCount.at(count.at));
    }
    let points = points as usize;
    within(memory, device, number, points, place.at)?;
    Ok((device, number, points, count.on(used)))
}

// The row of a batch in words: the device, the first number, how many words, and where what follows them begins.
// Unlike a row of bits it may be of any device, and has a limit and a cause of its own.
// A tuple, as all readers answer: what was read, and where the walk goes on.
fn word_row<'a, C: WireCode, M: ReadableMemory>(
    memory: &M,
    place: Place<'a>,
) -> Result<(Device, u32, usize, Place<'a>), Fault>
    ensures row { IfOk result (λ r. IsWordRow C.WireCode.which (M.ReadableMemory.means memory.now) place.entry.frame.now place.entry.at (r.0, r.1, r.2, r.3.at)) }
    ensures few { IfOk result (λ r. (r.1 < 2 ^ 24) × (r.2 ≤ 960) × (r.3.frame.now ≡ place.entry.frame.now)) }
    ensures declined { IfErr result (λ e. (judged C.WireCode.which (M.ReadableMemory.means memory.now) ReadWords place.entry.frame.now place.entry.at ≡ Err e) × (judged C.WireCode.which (M.ReadableMemory.means memory.now) WriteWords place.entry.frame.now place.entry.at ≡ Err e)) }
{
    let (device, number, used) = place.device::<C>()?;
    let count = place.on(used);
    let (words, used) = count.number::<C>(2)?;
    if !(1..=960).contains(&words) {
        return Err(Cause::WordCount.at(count.at));
    }
    let words = words as usize;
    let points = points_of(device.kind(), words);
    within(memory, device, number, points, place.at)?;
    Ok((device, number, words, count.on(used)))
}

// 0401 with 0001: a batch of bits to read.
pub(crate) fn read_bits<'a, C: WireCode, M: ReadableMemory>(
    memory: &M,
    place: Place<'a>,
) -> Result<Request<'a>, Fault>
    ensures value { said C.WireCode.which result ≡ judged C.WireCode.which (M.ReadableMemory.means memory.now) ReadBits place.entry.frame.now place.entry.at }
    ensures whole { IfOk (held result) (Whole C.WireCode.which) }
    ensures stands { IfOk (held result) (Stands C.WireCode.which place.entry.frame.now place.entry.at) }
{
    let (device, number, points, end) = bit_row::<C, M>(memory, place)?;
    end.ended()?;
    Ok(Request::ReadBits {
        device,
        number,
        points,
    })
}

// 0401 with 0000: a batch of words to read.
// Each command keeps a function of its own, whose promise names it: what they share stands in the rows and the lists.
pub(crate) fn read_words<'a, C: WireCode, M: ReadableMemory>(
    memory: &M,
    place: Place<'a>,
) -> Result<Request<'a>, Fault>
    ensures value { said C.WireCode.which result ≡ judged C.WireCode.which (M.ReadableMemory.means memory.now) ReadWords place.entry.frame.now place.entry.at }
    ensures whole { IfOk (held result) (Whole C.WireCode.which) }
    ensures stands { IfOk (held result) (Stands C.WireCode.which place.entry.frame.now place.entry.at) }
{
    let (device, number, points, end) = word_row::<C, M>(memory, place)?;
    end.ended()?;
    Ok(Request::ReadWords {
        device,
        number,
        points,
    })
}

// Tests the digits of so many values of two bytes, and says where they end.
fn check_words<C: WireCode>(place: Place<'_>, count: usize) -> Result<usize, Fault>
    ensures value { result ≡ list_end (value_at C.WireCode.which place.entry.frame.now) count place.entry.at }
    ensures whole { OnOk result (length (list_in (number_in C.WireCode.which 2) count (drop place.entry.at place.entry.frame.now)) ≡ count) }
{
    fields::list_end(place.at, count, |at| place.to(at).number::<C>(2))
}

// 1401 with 0000: a batch of words to write.
pub(crate) fn write_words<'a, C: WireCode, M: WritableMemory>(
    memory: &M,
    place: Place<'a>,
) -> Result<Request<'a>, Fault>
    ensures value { said C.WireCode.which result ≡ judged C.WireCode.which (M.ReadableMemory.means memory.now) WriteWords place.entry.frame.now place.entry.at }
    ensures whole { IfOk (held result) (Whole C.WireCode.which) }
    ensures stands { IfOk (held result) (Stands C.WireCode.which place.entry.frame.now place.entry.at) }
{
    let (device, number, words, data) = word_row::<C, M>(memory, place)?;
    let points = points_of(device.kind(), words);
    open(memory, device, number, points, place.at)?;
    let used = data.present(words * C::field_size(2))?;
    let _ = check_words::<C>(data, words)?;
    data.on(used).ended()?;
    Ok(Request::WriteWords {
        device,
        number,
        points: words,
        data: data.rest(),
        place: data.at,
    })
}

// The digit of one point among points in bits that stand at `at`.
fn half<C: WireCode>(bytes: &[u8], at: usize, index: usize) -> Result<u8, Fault>
    requires { (bits_size C.WireCode.which (index + 1) ≤ length bytes.now) × (at + index + 255 < 2 ^ 64) }
    ensures { result ≡ placed (at + index) (half_in C.WireCode.which bytes.now index) }
{
    C::read_half(bytes, index).map_err(|fault| fields::data_fault(at + index, fault))
}

// Tests the digits of so many points in bits that stand at `at`, and says how many they are.
fn check_bits<C: WireCode>(bytes: &[u8], at: usize, count: usize) -> Result<usize, Fault>
    requires { (bits_size C.WireCode.which count ≤ length bytes.now) × (at + count + 255 < 2 ^ 64) }
    ensures { result ≡ list_end (half_at C.WireCode.which bytes.now at) count 0 }
{
    fields::list_end(
        0,
        count,
        |index| half::<C>(bytes, at, index).map(|digit| (digit, 1)),
    )
}

// Whether each of so many points in bits is 0 or 1.
fn are_bits<C: WireCode>(bytes: &[u8], count: usize) -> bool
    requires { count ≤ 3584 }
    ensures { result ≡ all_bits (bits_in C.WireCode.which bytes.now 0 count) }
{
    (0..count).all(|index| bit_at::<C>(bytes, index) <= 1)
}

// 1401 with 0001: a batch of bits to write.
pub(crate) fn write_bits<'a, C: WireCode, M: WritableMemory>(
    memory: &M,
    place: Place<'a>,
) -> Result<Request<'a>, Fault>
    ensures value { said C.WireCode.which result ≡ judged C.WireCode.which (M.ReadableMemory.means memory.now) WriteBits place.entry.frame.now place.entry.at }
    ensures whole { IfOk (held result) (Whole C.WireCode.which) }
    ensures stands { IfOk (held result) (Stands C.WireCode.which place.entry.frame.now place.entry.at) }
{
    let (device, number, points, data) = bit_row::<C, M>(memory, place)?;
    open(memory, device, number, points, place.at)?;
    let used = data.present(C::bits_size(points))?;
    let bits = data.rest();
    let _ = check_bits::<C>(bits, data.at, points)?;
    if !C::is_filled(bits, points) || !are_bits::<C>(bits, points) {
        return Err(Cause::BadValue.at(data.at));
    }
    data.on(used).ended()?;
    Ok(Request::WriteBits {
        device,
        number,
        points,
        data: bits,
        place: data.at,
    })
}
