// Numbers one behind the other, as the fields of a frame are.
ghost use Rattle.std.specs.Prelude.{◌≡◌, ◌+◌, ◌*◌, ◌<◌, ◌≤◌, length};
ghost use Rattle.std.proofs.lemmas.List.Edits.{sets};
ghost use Rattle.wire.specs.Numbers.{per_byte};
ghost use Rattle.wire.specs.Series.{AllShort, series_size, series_bytes};

use crate::code::WireCode;

// A number and how many bytes it has.
#[derive(Clone, Copy, PartialEq, Eq, Debug)]
pub struct Number {
    pub size: usize,
    pub value: u32,
}

// Writes the numbers from `at` on, and says where they end.
pub fn write_series<C: WireCode>(out: &mut [u8], at: usize, numbers: &[Number]) -> usize
    requires { (AllShort numbers.now) × (at + series_size numbers.now * per_byte C.WireCode.which ≤ length out.old) }
    ensures end { result ≡ at + series_size numbers.now * per_byte C.WireCode.which }
    ensures written { out.new ≡ sets out.old at (series_bytes C.WireCode.which numbers.now) }
{
    let mut place = at;
    for number in numbers {
        place += C::write_number(out, place, number.size, number.value);
    }
    place
}
