// Writes points read out of a memory into a reply.
ghost use Rattle.std.specs.Prelude.{◌≡◌, ◌+◌, ◌-◌, ◌*◌, ◌^◌, ◌<◌, ◌≤◌, length, take, drop};
ghost use Rattle.std.proofs.lemmas.List.Edits.{sets};
ghost use Rattle.device.specs.Devices.{kind_of};
ghost use Rattle.device.specs.declared.types.Kind.TheVariants.{Bit};
ghost use Rattle.wire.specs.Numbers.{per_byte, encode};
ghost use Rattle.wire.specs.Series.{values_bytes};
ghost use Rattle.wire.specs.Points.{bits_bytes, bits_size};
ghost use Rattle.request.specs.Entries.{access_in};
ghost use Rattle.request.specs.Fields.{list_in};
ghost use Rattle.server.specs.Points.{words, bits, bytes_of, values_of};
ghost use Rattle.server.specs.Registered.{all_of};

use crate::points::{Width, access_value, value_at, word_at, word_points};
use crate::registering::Registering;
use device::Device;
use memory::ReadableMemory;
use request::access_at;
use wire::WireCode;

// Writes so many words from `at` on.
pub(crate) fn write_words<C: WireCode, M: ReadableMemory>(
    out: &mut [u8],
    at: usize,
    memory: &M,
    device: Device,
    number: u32,
    count: usize,
)
    requires { (count ≤ 960) × (number < 2 ^ 24) × (at + count * (2 * per_byte C.which) ≤ length out.old) }
    ensures { out.new ≡ sets out.old at (values_bytes C.which 2 (words (M.means memory.now).value device number count)) }
{
    let step = word_points(device);
    let mut place = at;
    // By index, since points are asked for one at a time by their numbers: there is no list to go over.
    for i in 0..count as u32 {
        let word = word_at(memory, device, number + i * step);
        place += C::write_number(out, place, 2, u32::from(word));
    }
}

// Writes so many points in bits from `at` on, two at a time.
pub(crate) fn write_bits<C: WireCode, M: ReadableMemory>(
    out: &mut [u8],
    at: usize,
    memory: &M,
    device: Device,
    number: u32,
    count: usize,
)
    requires { (count ≤ 3584) × (number < 2 ^ 24) × (kind_of device ≡ Bit) × (at + bits_size C.which count ≤ length out.old) }
    ensures { out.new ≡ sets out.old at (bits_bytes C.which (bits (M.means memory.now).value device number count)) }
{
    let mut place = at;
    // By index, since points are asked for one at a time by their numbers: there is no list to go over.
    for i in 0..count as u32 / 2 {
        let one = value_at(memory, device, number + 2 * i);
        let other = value_at(memory, device, number + 2 * i + 1);
        place += C::write_two_bits(out, place, one, other);
    }
    if count % 2 == 1 {
        C::write_last_bit(
            out,
            place,
            value_at(memory, device, number + count as u32 - 1),
        );
    }
}

// Writes a value of this width at `at`, as one number, and says how many wire bytes it took.
fn write_sized<C: WireCode>(out: &mut [u8], at: usize, value: u32, width: Width) -> usize
    requires { at + bytes_of width * per_byte C.which ≤ length out.old }
    ensures used { result ≡ bytes_of width * per_byte C.which }
    ensures written { out.new ≡ sets out.old at (encode C.which (bytes_of width) value) }
{
    C::write_number(out, at, width.bytes(), value)
}

// Writes the values of so many accesses of a registration from an index on, and says where they end.
pub(crate) fn write_kept<C: WireCode, M: ReadableMemory, R: Registering>(
    out: &mut [u8],
    at: usize,
    memory: &M,
    registration: &R,
    from: usize,
    count: usize,
    width: Width,
) -> usize
    requires { (count ≤ 192) × (from + count ≤ length (all_of (R.lists registration.now))) × (from < 2 ^ 32) × (at + count * (bytes_of width * per_byte C.which) ≤ length out.old) }
    ensures end { result ≡ at + count * (bytes_of width * per_byte C.which) }
    ensures written { let values = values_of width (M.means memory.now).value (take count (drop from (all_of (R.lists registration.now)))) in
        out.new ≡ sets out.old at (values_bytes C.which (bytes_of width) values) }
{
    let mut place = at;
    // By index, since a registration is asked for one access at a time: there is no list to go over.
    for i in 0..count {
        let access = registration.access(from + i);
        let value = access_value(memory, access.device, access.number, width);
        place += write_sized::<C>(out, place, value, width);
    }
    place
}

// Writes the values of the accesses of a list, from a place in it on, and says where they end. An access that cannot be read ends them.
pub(crate) fn write_listed<C: WireCode, M: ReadableMemory>(
    out: &mut [u8],
    at: usize,
    memory: &M,
    list: &[u8],
    from: usize,
    count: usize,
    width: Width,
) -> usize
    requires { (count ≤ 192) × (at + count * (bytes_of width * per_byte C.which) ≤ length out.old) }
    ensures end { result ≡ at + length (list_in (access_in C.which) count (drop from list.now)) * (bytes_of width * per_byte C.which) }
    ensures written { let values = values_of width (M.means memory.now).value (list_in (access_in C.which) count (drop from list.now)) in
        out.new ≡ sets out.old at (values_bytes C.which (bytes_of width) values) }
{
    let mut place = at;
    let mut next = from;
    for _ in 0..count {
        let Ok(((device, number), used)) = access_at::<C>(list, next) else {
            return place;
        };
        let value = access_value(memory, device, number, width);
        place += write_sized::<C>(out, place, value, width);
        next += used;
    }
    place
}
