// Packed tables: the points in the caller's lent 16-bit words.
ghost use Rattle.std.specs.Prelude.{◌≡◌, ◌^◌, ◌<◌, refl};
ghost use Rattle.memory.specs.Making.{needed, making};
ghost use Rattle.memory.specs.Stored.{with_bit, with_part, part_of};
ghost use Rattle.memory.specs.declared.layout.Form.TheVariants.{Packed};

use crate::layout::{Form, making, units_needed};
use crate::refusal::Refusal;
use crate::storage::{Storage, Unit};
use device::Kind;

// The word in which one bit alone is set.
fn bit(at: u32) -> u16
    requires { at < 16 }
    ensures { result ≡ 2 ^ at }
{
    1 << at
}

// The word with a bit of it set or cleared.
fn with_bit(word: u16, at: u32, value: u16) -> u16
    requires { at < 16 }
    ensures { result ≡ with_bit word at value }
{
    if value == 1 {
        word | bit(at)
    } else {
        word & !bit(at)
    }
}

// A point's word once the point has the value.
fn with_part(kind: Kind, word: u16, number: u32, value: u16) -> u16
    ensures { result ≡ with_part kind word number value }
{
    match kind {
        Kind::Bit => with_bit(word, number % 16, value),
        Kind::Word => value,
    }
}

// What a point holds, by its word.
fn part_of(kind: Kind, word: u16, number: u32) -> u16
    ensures { result ≡ part_of kind word number }
{
    match kind {
        Kind::Bit => (word >> (number % 16)) % 2,
        Kind::Word => word,
    }
}

// How many words tables of these extents take; refused where an extent is too large.
// This and the next function, and those of an image, are public names of one function each: with the form as a parameter a caller would write as much.
pub fn words_needed(extents: &[u32; 12]) -> Result<usize, Refusal>
    ensures { result ≡ needed Packed extents.now }
{
    units_needed(Form::Packed, extents)
}

// Whether tables of these extents can be made over so many words.
pub fn fits(words: usize, extents: &[u32; 12]) -> Result<(), Refusal>
    ensures { result ≡ making Packed extents.now words }
{
    making(Form::Packed, extents, words)
}

// Packed tables: a storage of words.
pub type PackedTables<'a> = Storage<'a, u16>;

impl Unit for u16 {
    const FORM: Form = Form::Packed;

    ghost FORM = { Packed };

    ghost numbers = { λ units. units };

    fn point(units: &[u16], at: usize, kind: Kind, number: u32) -> u16 {
        part_of(kind, units[at], number)
    }

    fn put(units: &mut [u16], at: usize, kind: Kind, number: u32, value: u16) {
        units[at] = with_part(kind, units[at], number, value);
    }

    ghost counted = { λ units. refl };
}
