// Lists of entries, each with a device and a number of its own.
ghost use Rattle.std.specs.Prelude.{◌≡◌, ℕ, ◌+◌, ◌*◌, ◌<◌, ◌≤◌, Bool, length, Ok, Result, IfOk};
ghost use Rattle.wire.specs.Numbers.{then, per_byte};
ghost use Rattle.frame.specs.declared.fault.Fault.{Fault};
ghost use Rattle.request.specs.Fields.{Reads, ReadsWithin};
ghost use Rattle.request.specs.Limits.{random_ok, random_write_ok};
ghost use Rattle.request.specs.Requests.{RandomRead, RandomWrite, RandomBits};
ghost use Rattle.request.specs.Judging.{judged};
ghost use Rattle.request.specs.Requests.{Register as Registering};
ghost use Rattle.request.specs.Entries.{access_at, setting_at, bit_setting_at};
ghost use Rattle.request.specs.Readings.{held, said, Whole, Stands};
ghost use Rattle.request.specs.Lists.{two_lists, random_list, write_list, bits_list};

use crate::fields::{self, Place};
use crate::spans::{open, points_of, within};
use crate::types::Request;
use device::{Device, Kind};
use frame::{Cause, Fault};
use memory::{ReadableMemory, WritableMemory};
use wire::WireCode;

// One access of `width` words, tested, and the wire bytes it used.
// The width is a count, by which points and bytes are counted: an enum would be turned back into it at once.
// Each of the three begins with the device and its points; a setting goes on to openness and a value, one in bits tests the kind and the value too.
fn access<C: WireCode, M: ReadableMemory>(
    memory: &M,
    place: Place<'_>,
    width: usize,
) -> Result<((Device, u32), usize), Fault>
    requires { width ≤ 2 }
    ensures value { result ≡ access_at C.WireCode.which (M.ReadableMemory.means memory.now) width place.entry.frame.now place.entry.at }
    ensures within { IfOk result (λ a. place.entry.at + a.1 ≤ length place.entry.frame.now) }
{
    let (device, number, used) = place.device::<C>()?;
    let points = points_of(device.kind(), width);
    within(memory, device, number, points, place.at)?;
    Ok(((device, number), used))
}

// One setting of `width` words, tested, and the wire bytes it used.
fn setting<C: WireCode, M: WritableMemory>(
    memory: &M,
    place: Place<'_>,
    width: usize,
) -> Result<(((Device, u32), u32), usize), Fault>
    requires { width ≤ 2 }
    ensures value { result ≡ setting_at C.WireCode.which (M.ReadableMemory.means memory.now) width place.entry.frame.now place.entry.at }
    ensures within { IfOk result (λ a. place.entry.at + a.1 ≤ length place.entry.frame.now) }
{
    let (device, number, used) = place.device::<C>()?;
    let points = points_of(device.kind(), width);
    within(memory, device, number, points, place.at)?;
    open(memory, device, number, points, place.at)?;
    let (value, more) = place.on(used).number::<C>(2 * width)?;
    Ok((((device, number), value), used + more))
}

// One setting of a point in bits, tested, and the wire bytes it used.
fn bit_setting<C: WireCode, M: WritableMemory>(
    memory: &M,
    place: Place<'_>,
) -> Result<(((Device, u32), u32), usize), Fault>
    ensures value { result ≡ bit_setting_at C.WireCode.which (M.ReadableMemory.means memory.now) place.entry.frame.now place.entry.at }
    ensures within { IfOk result (λ a. place.entry.at + a.1 ≤ length place.entry.frame.now) }
{
    let (device, number, used) = place.device::<C>()?;
    if device.kind() != Kind::Bit {
        return Err(Cause::WrongKind.at(place.at));
    }
    within(memory, device, number, 1, place.at)?;
    open(memory, device, number, 1, place.at)?;
    let field = place.on(used);
    let (value, more) = field.number::<C>(1)?;
    if value > 1 {
        return Err(Cause::BadValue.at(field.at));
    }
    Ok((((device, number), value), used + more))
}

// Tests a list of words and one of double words, behind their counts, to the end of the frame: the counts, and where the lists begin.
fn two_lists<
    'a,
    C: WireCode,
    T: Copy,
    P: Fn(usize, usize) -> bool,
    F: Fn(usize) -> Result<(T, usize), Fault>,
    G: Fn(usize) -> Result<(T, usize), Fault>,
>(place: Place<'a>, fits: P, word: F, double: G) -> Result<(usize, usize, Place<'a>), Fault>
    requires counts { (w d : ℕ) → w < 256 → d < 256 → P.pre fits w d }
    requires words { ReadsWithin (F.pre word) (F.post word) (length place.frame.now) }
    requires doubles { ReadsWithin (G.pre double) (G.post double) (length place.frame.now) }
    ensures value { (ok : ℕ → ℕ → Bool) (r s : ℕ → Result (T × ℕ) Fault) → ((w d : ℕ) (b : Bool) → P.post fits w d b → b ≡ ok w d) → Reads (F.post word) r → Reads (G.post double) s → then result (λ a. Ok (a.0, a.1, a.2.at)) ≡ two_lists C.WireCode.which place.entry.frame.now place.entry.at ok r s }
    ensures within { IfOk result (λ a. (a.2.frame.now ≡ place.entry.frame.now) × (a.2.at ≡ place.entry.at + 2 * per_byte C.WireCode.which)) }
{
    let (words, doubles, used) = place.counts::<C>()?;
    if !fits(words, doubles) {
        return Err(Cause::RandomCount.at(place.at));
    }
    let list = place.on(used);
    let doubles_at = fields::list_end(list.at, words, word)?;
    let end = fields::list_end(doubles_at, doubles, double)?;
    place.to(end).ended()?;
    Ok((words, doubles, list))
}

// Whether a random read, or a registration, may have so many words and double words.
fn random_fits(words: usize, doubles: usize) -> bool
    requires { (words < 256) × (doubles < 256) }
    ensures { result ≡ random_ok words doubles }
{
    (1..=192).contains(&(words + doubles))
}

// Whether a random write may have so many words and double words.
fn write_fits(words: usize, doubles: usize) -> bool
    requires { (words < 256) × (doubles < 256) }
    ensures { result ≡ random_write_ok words doubles }
{
    (1..=1920).contains(&(12 * words + 14 * doubles))
}

// Tests the lists of a random read or a registration: the counts, and where the lists begin.
fn random_list<'a, C: WireCode, M: ReadableMemory>(
    memory: &M,
    place: Place<'a>,
) -> Result<(usize, usize, Place<'a>), Fault>
    ensures value { then result (λ a. Ok (a.0, a.1, a.2.at)) ≡ random_list C.WireCode.which (M.ReadableMemory.means memory.now) place.entry.frame.now place.entry.at }
    ensures within { IfOk result (λ a. (a.2.frame.now ≡ place.entry.frame.now) × (a.2.at ≡ place.entry.at + 2 * per_byte C.WireCode.which)) }
{
    two_lists::<C, _, _, _, _>(
        place,
        random_fits,
        |at| access::<C, M>(memory, place.to(at), 1),
        |at| access::<C, M>(memory, place.to(at), 2),
    )
}

// Tests the lists of a random write: the counts, and where the lists begin.
// It names another limit and other readers than the one above, and both are no more than that.
fn write_list<'a, C: WireCode, M: WritableMemory>(
    memory: &M,
    place: Place<'a>,
) -> Result<(usize, usize, Place<'a>), Fault>
    ensures value { then result (λ a. Ok (a.0, a.1, a.2.at)) ≡ write_list C.WireCode.which (M.ReadableMemory.means memory.now) place.entry.frame.now place.entry.at }
    ensures within { IfOk result (λ a. (a.2.frame.now ≡ place.entry.frame.now) × (a.2.at ≡ place.entry.at + 2 * per_byte C.WireCode.which)) }
{
    two_lists::<C, _, _, _, _>(
        place,
        write_fits,
        |at| setting::<C, M>(memory, place.to(at), 1),
        |at| setting::<C, M>(memory, place.to(at), 2),
    )
}

// Tests the list of a random write in bits: the count, and where the list begins.
fn bits_list<'a, C: WireCode, M: WritableMemory>(
    memory: &M,
    place: Place<'a>,
) -> Result<(usize, Place<'a>), Fault>
    ensures value { then result (λ a. Ok (a.0, a.1.at)) ≡ bits_list C.WireCode.which (M.ReadableMemory.means memory.now) place.entry.frame.now place.entry.at }
    ensures within { IfOk result (λ a. (a.1.frame.now ≡ place.entry.frame.now) × (a.1.at ≡ place.entry.at + 1 * per_byte C.WireCode.which)) }
{
    let (count, used) = place.number::<C>(1)?;
    if !(1..=188).contains(&count) {
        return Err(Cause::RandomBitCount.at(place.at));
    }
    let count = count as usize;
    let list = place.on(used);
    let end = fields::list_end(
        list.at,
        count,
        |at| bit_setting::<C, M>(memory, place.to(at)),
    )?;
    place.to(end).ended()?;
    Ok((count, list))
}

// 0403 with 0000: a random read.
// Each command keeps a function of its own, whose promise names it: what they share stands in the lists.
pub(crate) fn read_random<'a, C: WireCode, M: ReadableMemory>(
    memory: &M,
    place: Place<'a>,
) -> Result<Request<'a>, Fault>
    ensures value { said C.WireCode.which result ≡ judged C.WireCode.which (M.ReadableMemory.means memory.now) RandomRead place.entry.frame.now place.entry.at }
    ensures whole { IfOk (held result) (Whole C.WireCode.which) }
    ensures stands { IfOk (held result) (Stands C.WireCode.which place.entry.frame.now place.entry.at) }
{
    let (words, doubles, list) = random_list::<C, M>(memory, place)?;
    Ok(Request::ReadRandom {
        words,
        doubles,
        list: list.rest(),
        place: list.at,
    })
}

// 0801 with 0000: a registration. Its spans are tested; what is open is not.
pub(crate) fn register<'a, C: WireCode, M: ReadableMemory>(
    memory: &M,
    place: Place<'a>,
) -> Result<Request<'a>, Fault>
    ensures value { said C.WireCode.which result ≡ judged C.WireCode.which (M.ReadableMemory.means memory.now) Registering place.entry.frame.now place.entry.at }
    ensures whole { IfOk (held result) (Whole C.WireCode.which) }
    ensures stands { IfOk (held result) (Stands C.WireCode.which place.entry.frame.now place.entry.at) }
{
    let (words, doubles, list) = random_list::<C, M>(memory, place)?;
    Ok(Request::Register {
        words,
        doubles,
        list: list.rest(),
        place: list.at,
    })
}

// 1402 with 0000: a random write.
pub(crate) fn write_random<'a, C: WireCode, M: WritableMemory>(
    memory: &M,
    place: Place<'a>,
) -> Result<Request<'a>, Fault>
    ensures value { said C.WireCode.which result ≡ judged C.WireCode.which (M.ReadableMemory.means memory.now) RandomWrite place.entry.frame.now place.entry.at }
    ensures whole { IfOk (held result) (Whole C.WireCode.which) }
    ensures stands { IfOk (held result) (Stands C.WireCode.which place.entry.frame.now place.entry.at) }
{
    let (words, doubles, list) = write_list::<C, M>(memory, place)?;
    Ok(Request::WriteRandom {
        words,
        doubles,
        list: list.rest(),
        place: list.at,
    })
}

// 1402 with 0001: a random write in bits.
pub(crate) fn write_random_bits<'a, C: WireCode, M: WritableMemory>(
    memory: &M,
    place: Place<'a>,
) -> Result<Request<'a>, Fault>
    ensures value { said C.WireCode.which result ≡ judged C.WireCode.which (M.ReadableMemory.means memory.now) RandomBits place.entry.frame.now place.entry.at }
    ensures whole { IfOk (held result) (Whole C.WireCode.which) }
    ensures stands { IfOk (held result) (Stands C.WireCode.which place.entry.frame.now place.entry.at) }
{
    let (count, list) = bits_list::<C, M>(memory, place)?;
    Ok(Request::WriteRandomBits {
        count,
        list: list.rest(),
        place: list.at,
    })
}
