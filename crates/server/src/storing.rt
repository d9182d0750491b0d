// Writes words and points to any writable memory.
// Each function here says which point writes it puts to the memory, in their order; what they leave of the memory is what the memory's own writes leave.
ghost use Rattle.std.specs.Prelude.{◌+◌, ◌*◌, ◌/◌, ◌%◌, ◌^◌, ◌<◌, ◌≤◌, ◌++◌, drop};
ghost use Rattle.wire.specs.Numbers.{per_byte, number_in};
ghost use Rattle.request.specs.Entries.{setting_in};
ghost use Rattle.request.specs.Writing.{Each};
ghost use Rattle.request.specs.Fields.{list_in, bits_in};
ghost use Rattle.server.specs.Points.{bytes_of};
ghost use Rattle.memory.specs.Leaving.{Leads, Tries};
ghost use Rattle.server.specs.Writes.{as_point, spread, as_word, as_double, in_row, as_words, each, as_width};

use crate::points::{Width, word_points};
use device::{Device, Kind};
use memory::{ReadableMemory, WritableMemory};
use request::{bit_at, setting_at, word_at};
use wire::WireCode;

// Gives a point a value; a memory that refuses stays as it is.
pub(crate) fn put_point<M: WritableMemory>(memory: &mut M, device: Device, number: u32, value: u16)
    ensures { Leads (Tries M.means M.leaves) memory.old (as_point device number value) memory.new }
{
    let _ = memory.write(device, number, value);
}

// Gives sixteen bit points the bits of a word, the lowest number bit 0.
fn put_sixteen<M: WritableMemory>(memory: &mut M, device: Device, number: u32, value: u16)
    requires { number < 2 ^ 31 }
    ensures { Leads (Tries M.means M.leaves) memory.old (spread device number 16 value) memory.new }
{
    // By index, since points are given by their numbers, and bits by their places: there is no list of either.
    for i in 0..16u32 {
        put_point(memory, device, number + i, (value >> i) % 2);
    }
}

// Gives the word that begins at a point a value.
pub(crate) fn put_word<M: WritableMemory>(memory: &mut M, device: Device, number: u32, value: u16)
    requires { number < 2 ^ 31 }
    ensures { Leads (Tries M.means M.leaves) memory.old (as_word device number value) memory.new }
{
    match device.kind() {
        Kind::Bit => put_sixteen(memory, device, number, value),
        Kind::Word => put_point(memory, device, number, value),
    }
}

// Gives the double word that begins at a point a value: the low word first.
pub(crate) fn put_double<M: WritableMemory>(memory: &mut M, device: Device, number: u32, value: u32)
    requires { number < 2 ^ 30 }
    ensures { Leads (Tries M.means M.leaves) memory.old (as_double device number value) memory.new }
{
    put_word(memory, device, number, (value % 65536) as u16);
    put_word(
        memory,
        device,
        number + word_points(device),
        (value / 65536) as u16,
    );
}

// Gives points one behind the other the values of bit data.
pub(crate) fn put_bits<C: WireCode, M: WritableMemory>(
    memory: &mut M,
    device: Device,
    number: u32,
    count: usize,
    bytes: &[u8],
)
    requires { (count ≤ 3584) × (number < 2 ^ 24) }
    ensures { Leads (Tries M.means M.leaves) memory.old (in_row device number (bits_in C.which bytes.now 0 count)) memory.new }
{
    // By index, since a point is given by its number and a bit by its place: there is no list of either.
    for i in 0..count {
        put_point(memory, device, number + i as u32, bit_at::<C>(bytes, i));
    }
}

// Gives words one behind the other the values of word data.
// This walk, that of `put_settings` and that of a registration's `fill` read other entries and do other things with them: one that took both as closures
// would be longer than its loop. A field stands where the one before ends, and one that cannot be read ends the walk.
pub(crate) fn put_words<C: WireCode, M: WritableMemory>(
    memory: &mut M,
    device: Device,
    number: u32,
    count: usize,
    bytes: &[u8],
)
    requires { (count ≤ 960) × (number < 2 ^ 24) }
    ensures leads { Leads (Tries M.means M.leaves) memory.old (as_words device number (list_in (number_in C.which 2) count bytes.now)) memory.new }
    ensures small { Each (λ v. v < 65536) (list_in (number_in C.which 2) count bytes.now) }
{
    let step = word_points(device);
    let mut place = 0;
    for i in 0..count {
        let Ok((value, used)) = word_at::<C>(bytes, place) else {
            return;
        };
        put_word(memory, device, number + i as u32 * step, value);
        place += used;
    }
}

// Gives an access a value.
fn put_access<M: WritableMemory>(
    memory: &mut M,
    device: Device,
    number: u32,
    value: u32,
    width: Width,
)
    requires { (number < 2 ^ 24) × (value < 256 ^ bytes_of width) }
    ensures { Leads (Tries M.means M.leaves) memory.old (as_width width device number value) memory.new }
{
    match width {
        Width::Point => put_point(memory, device, number, value as u16),
        Width::Word => put_word(memory, device, number, value as u16),
        Width::Double => put_double(memory, device, number, value),
    }
}

// Carries out so many settings of a list from a place in it on, one after the other.
pub(crate) fn put_settings<C: WireCode, M: WritableMemory>(
    memory: &mut M,
    list: &[u8],
    from: usize,
    count: usize,
    width: Width,
)
    ensures leads { Leads (Tries M.means M.leaves) memory.old (each (as_width width) (list_in (setting_in C.which (bytes_of width)) count (drop from list.now))) memory.new }
    ensures small { Each (λ s. s.1 < 256 ^ bytes_of width) (list_in (setting_in C.which (bytes_of width)) count (drop from list.now)) }
{
    let mut place = from;
    for _ in 0..count {
        let Ok((((device, number), value), used)) = setting_at::<C>(list, place, width.bytes())
        else {
            return;
        };
        put_access(memory, device, number, value, width);
        place += used;
    }
}

// Carries out a random write in bits: so many settings of a point.
pub(crate) fn put_random_bits<C: WireCode, M: WritableMemory>(
    memory: &mut M,
    list: &[u8],
    count: usize,
)
    ensures { Leads (Tries M.means M.leaves) memory.old (each as_point (list_in (setting_in C.which 1) count list.now)) memory.new }
{
    put_settings::<C, M>(memory, list, 0, count, Width::Point);
}

// Carries out a random write: so many settings of a word, and then of a double word.
pub(crate) fn put_random<C: WireCode, M: WritableMemory>(
    memory: &mut M,
    list: &[u8],
    words: usize,
    doubles: usize,
)
    requires { words ≤ 256 }
    ensures leads { let behind = drop (words * (6 * per_byte C.which)) list.now in
        let of_words = each as_word (list_in (setting_in C.which 2) words list.now) in
        let of_doubles = each as_double (list_in (setting_in C.which 4) doubles behind) in
        Leads (Tries M.means M.leaves) memory.old (of_words ++ of_doubles) memory.new }
    ensures words { Each (λ s. s.1 < 256 ^ 2) (list_in (setting_in C.which 2) words list.now) }
    ensures doubles { Each (λ s. s.1 < 256 ^ 4) (list_in (setting_in C.which 4) doubles (drop (words * (6 * per_byte C.which)) list.now)) }
{
    let behind = words * C::field_size(6);
    put_settings::<C, M>(memory, list, 0, words, Width::Word);
    put_settings::<C, M>(memory, list, behind, doubles, Width::Double);
}
