// A byte image: the points in the caller's lent bytes.
ghost use Rattle.std.specs.Prelude.{◌≡◌, ◌+◌, ◌<◌, ◌≤◌, length, refl};
ghost use Rattle.memory.specs.Layout.{width};
ghost use Rattle.memory.specs.Making.{needed, making};
ghost use Rattle.memory.specs.Stored.{byte_part};
ghost use Rattle.memory.specs.declared.layout.Form.TheVariants.{Image};

use crate::layout::{Form, making, units_needed};
use crate::refusal::Refusal;
use crate::storage::{Storage, Unit};
use device::Kind;

// What the point at these bytes holds.
fn byte_part(kind: Kind, bytes: &[u8], at: usize) -> u16
    requires { at + width Image kind ≤ length bytes.now }
    ensures { result ≡ byte_part kind bytes.now at }
{
    match kind {
        Kind::Bit => u16::from(bytes[at] != 0),
        Kind::Word => u16::from_le_bytes([bytes[at], bytes[at + 1]]),
    }
}

// How many bytes an image of these extents takes; refused where an extent is too large.
pub fn bytes_needed(extents: &[u32; 12]) -> Result<usize, Refusal>
    ensures { result ≡ needed Image extents.now }
{
    units_needed(Form::Image, extents)
}

// Whether an image of these extents can be made over so many bytes.
pub fn image_fits(bytes: usize, extents: &[u32; 12]) -> Result<(), Refusal>
    ensures { result ≡ making Image extents.now bytes }
{
    making(Form::Image, extents, bytes)
}

// A byte image: a storage of bytes.
pub type ByteImage<'a> = Storage<'a, u8>;

impl Unit for u8 {
    const FORM: Form = Form::Image;

    ghost FORM = { Image };

    ghost numbers = { λ units. units };

    fn point(units: &[u8], at: usize, kind: Kind, _number: u32) -> u16 {
        byte_part(kind, units, at)
    }

    fn put(units: &mut [u8], at: usize, kind: Kind, _number: u32, value: u16) {
        match kind {
            Kind::Bit => units[at] = value as u8,
            Kind::Word => units[at..at + 2].copy_from_slice(&value.to_le_bytes()),
        }
    }

    ghost counted = { λ units. refl };
}
