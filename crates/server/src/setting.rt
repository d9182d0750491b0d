// The bench gives a point a value, whatever the write flag is.
ghost use Rattle.std.specs.Prelude.{◌≡◌};
ghost use Rattle.memory.specs.Meaning.{write_answer, written as after_write};
ghost use Rattle.memory.specs.Leaving.{LeftBy};
ghost use Rattle.server.specs.Histories.{setting, written, State, with_meaning};
ghost use Rattle.server.specs.Kept.{CarriesOn};

use device::Device;
use memory::{ReadableMemory, Refusal, WritableMemory};

// Gives a point a value. A function of its own, so that it is proved from its contract alone.
fn give<M: WritableMemory>(
    memory: &mut M,
    device: Device,
    number: u32,
    value: u16,
) -> Result<(), Refusal>
    ensures answer { result ≡ write_answer (M.means memory.old) device number value }
    ensures meaning { M.means memory.new ≡ after_write result (M.means memory.old) device number value }
    ensures left { LeftBy M.leaves result memory.old device number value memory.new }
{
    memory.write(device, number, value)
}

// Gives a point a value, whatever the write flag is. Refused is a point outside (11), a closed one (12) and a value too wide for its kind (13); the
// memory is then what it was.
pub fn set_point<M: WritableMemory>(
    memory: &mut M,
    device: Device,
    number: u32,
    value: u16,
) -> Result<(), Refusal>
    ensures answer { result ≡ write_answer (M.means memory.old) device number value }
    ensures meaning { M.means memory.new ≡ after_write result (M.means memory.old) device number value }
    ensures left { LeftBy M.leaves result memory.old device number value memory.new }
    ensures carries { (s : State) →
        CarriesOn (with_meaning (M.means memory.old) s) (setting device number value) (written result) (with_meaning (M.means memory.new) s) }
{
    give(memory, device, number, value)
}
