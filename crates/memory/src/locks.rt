// Ranges of points that are to be closed to writing, gathered before a memory is put under them.
ghost use Rattle.std.specs.Prelude.{◌≡◌, []};
ghost use Rattle.memory.specs.Locks.{covers, is_locked, no_range, lock_answer, locks_after};

use crate::refusal::Refusal;
use arrayvec::ArrayVec;
use device::Device;

// The numbers of a device from the first to the last, both among them.
#[derive(Clone, Copy, PartialEq, Eq, Debug)]
pub struct Range {
    pub device: Device,
    pub first: u32,
    pub last: u32,
}

impl Range {
    fn covers(self, device: Device, number: u32) -> bool
        ensures { result ≡ covers self device number }
    {
        self.device == device && self.first <= number && number <= self.last
    }
}

// A vector of fixed room fills the places behind its end with this value; no call reads them.
impl Default for Range {
    ghost is_default = { λ r. r ≡ no_range };

    fn default() -> Range {
        Range {
            device: Device::M,
            first: 0,
            last: 0,
        }
    }
}

// Whether a point lies in one of the ranges.
fn is_locked(ranges: &[Range], device: Device, number: u32) -> bool
    ensures { result ≡ is_locked ranges.now device number }
{
    ranges.iter().any(|range| range.covers(device, number))
}

// Up to sixteen ranges, which may overlap and reach past the extent.
#[derive(Drop)]
pub struct Locks {
    ranges: ArrayVec<Range, 16>,
}

impl Locks {
    // No range.
    pub fn new() -> Locks
        ensures { result.ranges.items ≡ [] }
    {
        Locks {
            ranges: ArrayVec::new(),
        }
    }

    // Adds one more range; refuses a seventeenth, and a last number before the first, and changes nothing then.
    pub fn add(&mut self, range: Range) -> Result<(), Refusal>
        ensures answer { result ≡ lock_answer self.old.ranges.items range }
        ensures ranges { self.new.ranges.items ≡ locks_after result self.old.ranges.items range }
    {
        if self.ranges.is_full() || range.first > range.last {
            return Err(Refusal::NoLock);
        }
        self.ranges.push(range);
        Ok(())
    }

    // Whether a point lies in one of the ranges.
    pub fn covers(&self, device: Device, number: u32) -> bool
        ensures { result ≡ is_locked self.now.ranges.items device number }
    {
        is_locked(self.ranges.as_slice(), device, number)
    }
}

impl Default for Locks {
    fn default() -> Locks
        ensures { result.ranges.items ≡ [] }
    {
        Locks::new()
    }
}
