// What a device memory is: extents, values, and which points are open to writing.
ghost use Rattle.std.specs.Prelude.{◌≡◌};
ghost use Rattle.memory.specs.Meaning.{Meaning, Sound, told, write_answer, written};
ghost use Rattle.memory.specs.Leaving.{Leaving, LeftBy};

use crate::refusal::Refusal;
use device::Device;

// A memory that can be read. A question changes nothing, and put twice it answers alike.
// A point is named by its device and its number apart, here and in the crates above: what a memory means is a function of both, for which a clause
// would take a struct apart again, and walks over points go on by the number alone, so that each step would make a new struct.
pub trait ReadableMemory {
    // an extent for each device, a value for each point, and for each point whether it is open to writing
    ghost means: { Self → Meaning };

    // what meanings are like in every memory
    ghost sound: { Sound means };

    fn extent(&self, device: Device) -> u32
        ensures { result ≡ (means self.now).extent device };

    // The point's value; none outside.
    fn read(&self, device: Device, number: u32) -> Option<u16>
        ensures { result ≡ told (means self.now) device number };
}

// A memory that can also be written.
pub trait WritableMemory: ReadableMemory {
    // what a write that is carried out leaves of the memory itself, to the last byte
    ghost leaves: { Leaving Self };

    // Whether the point is open; never outside.
    fn is_open(&self, device: Device, number: u32) -> bool
        ensures { result ≡ (Self.means self.now).opened device number };

    // Gives the point the value; refuses a point outside, then a closed one, then a value too wide, and then leaves the memory that was there.
    fn write(&mut self, device: Device, number: u32, value: u16) -> Result<(), Refusal>
        ensures answer { result ≡ write_answer (Self.means self.old) device number value }
        ensures meaning { Self.means self.new ≡ written result (Self.means self.old) device number value }
        ensures left { LeftBy leaves result self.old device number value self.new };
}
