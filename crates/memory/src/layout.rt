// Where the points lie in a storage of units: 16-bit words for packed tables, bytes for an image.
// Form and extents stay apart here: the definitions take both, and a storage's unit gives its form.
ghost use Rattle.std.specs.Prelude.{◌≡◌, ◌+◌, ◌*◌, ◌^◌, ◌<◌, ◌≤◌};
ghost use Rattle.memory.specs.Meaning.{extent_limit};
ghost use Rattle.memory.specs.Layout.{units_for, unit_of, room, AreStarts};
ghost use Rattle.memory.specs.Making.{Small, small_below, is_fit, needed, making, made_of};
ghost use Rattle.memory.specs.Stored.{admitted};

use crate::refusal::Refusal;
use device::{DEVICES, Device, Kind};

// How a storage holds the points.
#[derive(Clone, Copy, PartialEq, Eq, Debug)]
pub enum Form {
    // a word a word point, and sixteen bit points a word, the lowest number in bit 0
    Packed,
    // two bytes a word point, the low byte first, and a byte a bit point
    Image,
}

// How many units so many points take.
fn units_for(form: Form, kind: Kind, points: u32) -> usize
    ensures value { result ≡ units_for form kind points }
    ensures bound { result ≤ 2 ^ 33 }
{
    match (form, kind) {
        (Form::Packed, Kind::Bit) => (points as usize + 15) / 16,
        (Form::Packed, Kind::Word) => points as usize,
        (Form::Image, Kind::Bit) => points as usize,
        (Form::Image, Kind::Word) => 2 * points as usize,
    }
}

// The first unit of a point, counted from its device's first. As many units lie before it as the points before it take, but for bits that share a word.
pub(crate) fn unit_of(form: Form, kind: Kind, number: u32) -> usize
    ensures value { result ≡ unit_of form kind number }
    ensures bound { result ≤ 2 ^ 33 }
{
    match (form, kind) {
        (Form::Packed, Kind::Bit) => number as usize / 16,
        _ => units_for(form, kind, number),
    }
}

// Where the units of each device begin, in the order of the table, and behind the last device where they end.
#[inline(always)]
pub(crate) fn starts_of(form: Form, extents: &[u32; 12]) -> [usize; 13]
    ensures { AreStarts form extents.now result }
{
    let mut starts = [0; 13];
    // By index: each device begins where the one before it ends.
    for place in 0..12usize {
        starts[place + 1] = starts[place] + units_for(form, DEVICES[place].kind, extents[place]);
    }
    starts
}

// The largest extent that a device may have.
pub fn extent_limit(_device: Device) -> u32
    ensures { result ≡ extent_limit _device }
{
    65536
}

// Whether no extent passes its device's limit.
fn all_small(extents: &[u32; 12]) -> bool
    ensures { result ≡ small_below extents.now 12 }
{
    DEVICES
        .iter()
        .zip(extents)
        .all(|(row, points)| *points <= extent_limit(row.device))
}

// How many units a storage of these extents takes.
pub(crate) fn units_needed(form: Form, extents: &[u32; 12]) -> Result<usize, Refusal>
    ensures { result ≡ needed form extents.now }
{
    if all_small(extents) {
        Ok(starts_of(form, extents)[12])
    } else {
        Err(Refusal::NoRoom)
    }
}

// Whether a storage of these extents can be made over so many units.
pub(crate) fn is_fit(form: Form, extents: &[u32; 12], units: usize) -> bool
    ensures { result ≡ is_fit form extents.now units }
{
    units_needed(form, extents).is_ok_and(|all| all <= units)
}

// The same as an answer.
pub(crate) fn making(form: Form, extents: &[u32; 12], units: usize) -> Result<(), Refusal>
    ensures { result ≡ making form extents.now units }
{
    if is_fit(form, extents, units) {
        Ok(())
    } else {
        Err(Refusal::NoRoom)
    }
}

// The extents of what is made over so many units, no points at all where they do not fit, and where their units begin.
#[inline(always)]
pub(crate) fn made(form: Form, extents: [u32; 12], units: usize) -> ([u32; 12], [usize; 13])
    ensures extents { result.0 ≡ made_of form extents units }
    ensures starts { AreStarts form result.0 result.1 }
    ensures small { Small result.0 }
    ensures fits { room form result.0 ≤ units }
{
    let starts = starts_of(form, &extents);
    if all_small(&extents) && starts[12] <= units {
        (extents, starts)
    } else {
        ([0; 12], starts_of(form, &[0; 12]))
    }
}

// What a write answers where every point is open: a point outside is refused before a value too wide.
pub(crate) fn admit(device: Device, extent: u32, number: u32, value: u16) -> Result<(), Refusal>
    ensures { result ≡ admitted device extent number value }
{
    if number >= extent {
        return Err(Refusal::Outside);
    }
    match device.kind() {
        Kind::Bit if value > 1 => Err(Refusal::TooWide),
        _ => Ok(()),
    }
}
