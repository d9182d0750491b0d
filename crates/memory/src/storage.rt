// A storage: the points in the caller's lent units, which are 16-bit words or bytes.
ghost use Rattle.std.specs.Prelude.{◌≡◌, ℕ, ◌+◌, ◌<◌, ◌≤◌, List, length};
ghost use Rattle.device.specs.Devices.{kind_of};
ghost use Rattle.memory.specs.Meaning.{value_limit};
ghost use Rattle.memory.specs.Layout.{width, room, extent_in, index_of, AreStarts};
ghost use Rattle.memory.specs.Making.{Small, made_of};
ghost use Rattle.memory.specs.Stored.{point_in, with_point, stored, PointPut};
ghost use Rattle.memory.specs.Kept.{stored_sound};
ghost use Rattle.memory.specs.declared.layout.Form.{Form as Held};

use crate::layout::{Form, admit, made, unit_of};
use crate::refusal::Refusal;
use crate::traits::{ReadableMemory, WritableMemory};
use device::{Device, Kind};

// The numbers that a storage is made of, and how they hold one point.
pub trait Unit: Copy {
    // how a storage of such units holds the points
    const FORM: Form;

    ghost FORM: { Held };

    // the units as numbers
    ghost numbers: { List Self → List ℕ };

    // What a point holds, by the units and its first.
    fn point(units: &[Self], at: usize, kind: Kind, number: u32) -> u16
        requires { at + width FORM kind ≤ length (numbers units.now) }
        ensures { result ≡ point_in FORM kind (numbers units.now) at number };

    // Gives the point the value, which its kind can hold.
    fn put(units: &mut [Self], at: usize, kind: Kind, number: u32, value: u16)
        requires { (at + width FORM kind ≤ length (numbers units.old)) × (value < value_limit kind) }
        ensures { numbers units.new ≡ with_point FORM kind (numbers units.old) at number value };

    // there are as many numbers as units
    ghost counted: { (units : List Self) → length (numbers units) ≡ length units };
}

// The points of the twelve devices, behind one another in the units.
#[derive(Drop)]
pub struct Storage<'a, U: Unit> {
    units: &'a mut [U],
    // One number for each device, in the order of the table: an array, since every device has one and there are always twelve.
    extents: [u32; 12],
    // Where the units of each device begin, and behind the last device where they end: what the extents say, found once.
    starts: [usize; 13],
    ghost begun: { AreStarts U.FORM extents starts },
    ghost small: { Small extents },
    ghost fits: { room U.FORM extents ≤ length (U.numbers units.now) },
}

impl<'a, U: Unit> Storage<'a, U> {
    // A storage of these extents over the units; of no points at all where they do not fit.
    pub fn new(units: &'a mut [U], extents: [u32; 12]) -> Storage<'a, U>
        ensures units { result.units.now ≡ units.old }
        ensures name { result.units.ghost_name ≡ units.entry.ghost_name }
        ensures extents { result.extents ≡ made_of U.FORM extents (length units.old) }
    {
        let (extents, starts) = made(U::FORM, extents, units.len());
        Storage {
            units,
            extents,
            starts,
        }
    }

    // The first unit of a point.
    fn index_of(&self, device: Device, number: u32) -> usize
        ensures value { result ≡ index_of U.FORM self.now.extents device number }
        ensures within { number < extent_in self.now.extents device → result + width U.FORM (kind_of device) ≤ length (U.numbers self.now.units.now) }
    {
        self.starts[device.place()] + unit_of(U::FORM, device.kind(), number)
    }
}

impl<'a> Storage<'a, u16> {
    // The words that packed tables lie in; the name of the units is another for an image.
    pub fn words(&self) -> &[u16]
        ensures { result.now ≡ self.now.units.now }
    {
        self.units
    }
}

impl<'a> Storage<'a, u8> {
    // The bytes that an image lies in.
    pub fn bytes(&self) -> &[u8]
        ensures { result.now ≡ self.now.units.now }
    {
        self.units
    }
}

impl<'a, U: Unit> ReadableMemory for Storage<'a, U> {
    ghost means = { λ s. stored U.FORM (U.numbers s.units.now) s.extents };

    ghost sound = { stored_sound U.FORM (λ s. s.extents) (λ s. U.numbers s.units.now) (λ s. s.small) };

    fn extent(&self, device: Device) -> u32 {
        self.extents[device.place()]
    }

    fn read(&self, device: Device, number: u32) -> Option<u16> {
        // no `then`: the proof of a closure in it does not learn that the point is inside
        if number >= self.extent(device) {
            return None;
        }
        let at = self.index_of(device, number);
        Some(U::point(self.units, at, device.kind(), number))
    }
}

impl<'a, U: Unit> WritableMemory for Storage<'a, U> {
    ghost leaves = { λ s d n v t. PointPut U.FORM d n v s.units.ghost_name s.extents s.starts (U.numbers s.units.now) t.units.ghost_name t.extents t.starts (U.numbers t.units.now) };

    fn is_open(&self, device: Device, number: u32) -> bool {
        number < self.extent(device)
    }

    fn write(&mut self, device: Device, number: u32, value: u16) -> Result<(), Refusal> {
        admit(device, self.extent(device), number, value)?;
        let at = self.index_of(device, number);
        U::put(self.units, at, device.kind(), number, value);
        Ok(())
    }
}
