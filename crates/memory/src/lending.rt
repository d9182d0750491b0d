// What the lender finds in its words or bytes once the memory over them is gone.
ghost use Rattle.std.specs.Prelude.{◌≡◌, length};
ghost use Rattle.memory.specs.Meaning.{write_answer};
ghost use Rattle.memory.specs.Making.{made_of};
ghost use Rattle.memory.specs.Stored.{stored, units_after};
ghost use Rattle.memory.specs.Kept.{Kept};
ghost use Rattle.memory.specs.declared.layout.Form.TheVariants.{Packed, Image};

use crate::refusal::Refusal;
use crate::storage::{Storage, Unit};
use crate::traits::WritableMemory;
use device::Device;

// Gives one point of a storage over the units a value.
fn set<U: Unit>(
    units: &mut [U],
    extents: [u32; 12],
    device: Device,
    number: u32,
    value: u16,
) -> Result<(), Refusal>
    ensures answer { result ≡ write_answer (stored U.FORM (U.numbers units.old) (made_of U.FORM extents (length units.old))) device number value }
    ensures units { U.numbers units.new ≡ units_after U.FORM result (U.numbers units.old) (made_of U.FORM extents (length units.old)) device number value }
    ensures kept { Kept U.FORM (made_of U.FORM extents (length units.old)) (U.numbers units.old) (U.numbers units.new) }
{
    let mut storage = Storage::new(units, extents);
    storage.write(device, number, value)
}

// Gives one point of packed tables over the words a value, which changes the bit or the word of the point alone. It is refused outside the extent (11), which
// is any number where the words do not hold the extents, or if the value is too wide (13), and then changes nothing.
// This and the next are public names of the function above, and their clauses speak of the lent slice itself.
pub fn set_packed(
    words: &mut [u16],
    extents: [u32; 12],
    device: Device,
    number: u32,
    value: u16,
) -> Result<(), Refusal>
    ensures answer { result ≡ write_answer (stored Packed words.old (made_of Packed extents (length words.old))) device number value }
    ensures words { words.new ≡ units_after Packed result words.old (made_of Packed extents (length words.old)) device number value }
    ensures kept { Kept Packed (made_of Packed extents (length words.old)) words.old words.new }
{
    set(words, extents, device, number, value)
}

// Gives one point of an image over the bytes a value, which changes the byte or the two bytes of the point alone, and is refused as above.
pub fn set_image(
    bytes: &mut [u8],
    extents: [u32; 12],
    device: Device,
    number: u32,
    value: u16,
) -> Result<(), Refusal>
    ensures answer { result ≡ write_answer (stored Image bytes.old (made_of Image extents (length bytes.old))) device number value }
    ensures bytes { bytes.new ≡ units_after Image result bytes.old (made_of Image extents (length bytes.old)) device number value }
    ensures kept { Kept Image (made_of Image extents (length bytes.old)) bytes.old bytes.new }
{
    set(bytes, extents, device, number, value)
}
