// A memory that is lent is a memory too, so that a layer over M by value can also stand over a borrowed one.
ghost use Rattle.std.specs.Prelude.{◌≡◌};

use crate::refusal::Refusal;
use crate::traits::{ReadableMemory, WritableMemory};
use device::Device;

impl<'b, M: ReadableMemory> ReadableMemory for &'b mut M {
    ghost means = { λ s. M.means s.now };

    ghost sound = { record { small = λ s. M.sound.small s.now; narrow = λ s. M.sound.narrow s.now; outside = λ s. M.sound.outside s.now; shut = λ s. M.sound.shut s.now } };

    fn extent(&self, device: Device) -> u32 {
        (**self).extent(device)
    }

    fn read(&self, device: Device, number: u32) -> Option<u16> {
        (**self).read(device, number)
    }
}

impl<'b, M: WritableMemory> WritableMemory for &'b mut M {
    ghost leaves = { λ s d n v t. (t.ghost_name ≡ s.ghost_name) × M.leaves s.now d n v t.now };

    fn is_open(&self, device: Device, number: u32) -> bool {
        (**self).is_open(device, number)
    }

    fn write(&mut self, device: Device, number: u32, value: u16) -> Result<(), Refusal> {
        (**self).write(device, number, value)
    }
}
