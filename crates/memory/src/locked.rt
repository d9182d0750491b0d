// The calibration lock: a layer over a memory that closes ranges of its points. The ranges are fixed at its making.
ghost use Rattle.std.specs.Prelude.{◌≡◌, ◌&&◌, nat_lt};
ghost use Rattle.memory.specs.Locks.{is_locked, under, shut_under};

use crate::locks::Locks;
use crate::refusal::Refusal;
use crate::traits::{ReadableMemory, WritableMemory};
use device::Device;

// A memory under locks. No call adds a range.
#[derive(Drop)]
pub struct Locked<M> {
    below: M,
    locks: Locks,
}

impl<M: WritableMemory> Locked<M> {
    // Puts the memory under these locks: what lies in a range of theirs is closed, and all else is as it is below.
    pub fn new(below: M, locks: Locks) -> Locked<M>
        ensures below { result.below ≡ below }
        ensures locks { result.locks ≡ locks }
    {
        Locked { below, locks }
    }

    // The memory below.
    pub fn below(&self) -> &M
        ensures { result.now ≡ self.now.below }
    {
        &self.below
    }

    // Gives the memory and the locks back.
    pub fn into_parts(self) -> (M, Locks)
        ensures below { result.0 ≡ self.below }
        ensures locks { result.1 ≡ self.locks }
    {
        (self.below, self.locks)
    }
}

impl<M: ReadableMemory> ReadableMemory for Locked<M> {
    ghost means = { λ s. under s.locks.ranges.items (M.means s.below) };

    ghost sound = { record {
      small = λ s. M.sound.small s.below;
      narrow = λ s. M.sound.narrow s.below;
      outside = λ s. M.sound.outside s.below;
      shut = λ s d n h. shut_under s.locks.ranges.items (M.means s.below) d n (M.sound.shut s.below d n h);
    } };

    fn extent(&self, device: Device) -> u32 {
        self.below.extent(device)
    }

    fn read(&self, device: Device, number: u32) -> Option<u16> {
        self.below.read(device, number)
    }
}

impl<M: WritableMemory> Locked<M> {
    // Whether a point inside is locked.
    fn is_shut(&self, device: Device, number: u32) -> bool
        ensures { result ≡ (nat_lt number ((M.means self.now.below).extent device) && is_locked self.now.locks.ranges.items device number) }
    {
        number < self.below.extent(device) && self.locks.covers(device, number)
    }
}

impl<M: WritableMemory> WritableMemory for Locked<M> {
    ghost leaves = { λ s d n v t. M.leaves s.below d n v t.below × (t.locks ≡ s.locks) };

    fn is_open(&self, device: Device, number: u32) -> bool {
        self.below.is_open(device, number) && !self.locks.covers(device, number)
    }

    fn write(&mut self, device: Device, number: u32, value: u16) -> Result<(), Refusal> {
        if self.is_shut(device, number) {
            return Err(Refusal::Closed);
        }
        self.below.write(device, number, value)
    }
}
