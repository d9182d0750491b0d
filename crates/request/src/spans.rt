// The points that a request reaches, tested over the memory.
ghost use Rattle.std.specs.Prelude.{◌≡◌, ◌+◌, ◌*◌, ◌^◌, ◌<◌, ◌≤◌, cond, Ok, Err};
ghost use Rattle.frame.specs.declared.fault.Cause.TheVariants.{OutsideExtent, ClosedPoint};
ghost use Rattle.frame.specs.Faults.{fault};
ghost use Rattle.request.specs.Limits.{points, within, all_open};

use device::{Device, Kind};
use frame::{Cause, Fault};
use memory::{ReadableMemory, WritableMemory};

// The points of so many words.
pub(crate) fn points_of(kind: Kind, words: usize) -> usize
    requires { words ≤ 960 }
    ensures value { result ≡ points kind words }
    ensures few { result ≤ 65536 }
{
    match kind {
        Kind::Bit => 16 * words,
        Kind::Word => words,
    }
}

// Whether so many points from `number` on lie within the extent.
fn is_within<M: ReadableMemory>(memory: &M, device: Device, number: u32, points: usize) -> bool
    requires { points ≤ 65536 }
    ensures { result ≡ within (M.ReadableMemory.means memory.now) device number points }
{
    number as usize + points <= memory.extent(device) as usize
}

// Whether so many points from `number` on are open.
fn all_open<M: WritableMemory>(memory: &M, device: Device, number: u32, points: usize) -> bool
    requires { (number < 2 ^ 24) × (points ≤ 65536) }
    ensures { result ≡ all_open (M.ReadableMemory.means memory.now) device number points }
{
    (0..points).all(|i| memory.is_open(device, number + i as u32))
}

// So many points from `number` on lie within the extent; the fault is at the device field, which stands at `at`.
pub(crate) fn within<M: ReadableMemory>(
    memory: &M,
    device: Device,
    number: u32,
    points: usize,
    at: usize,
) -> Result<(), Fault>
    requires { points ≤ 65536 }
    ensures { result ≡ cond (within (M.ReadableMemory.means memory.now) device number points) (Ok tt) (Err (fault OutsideExtent at)) }
{
    if is_within(memory, device, number, points) {
        Ok(())
    } else {
        Err(Cause::OutsideExtent.at(at))
    }
}

// So many points from `number` on are open; the fault is at the device field, which stands at `at`.
// It asks a writable memory, and the one above a readable one, so that reading commands need no more: one function cannot.
pub(crate) fn open<M: WritableMemory>(
    memory: &M,
    device: Device,
    number: u32,
    points: usize,
    at: usize,
) -> Result<(), Fault>
    requires { (number < 2 ^ 24) × (points ≤ 65536) }
    ensures { result ≡ cond (all_open (M.ReadableMemory.means memory.now) device number points) (Ok tt) (Err (fault ClosedPoint at)) }
{
    if all_open(memory, device, number, points) {
        Ok(())
    } else {
        Err(Cause::ClosedPoint.at(at))
    }
}
