// Values of points in plain words.
ghost use Rattle.std.specs.Prelude.{◌≡◌, cond, nat_le};

use crate::width::Width;
use crate::words::{Point, Value};
use device::Kind;
use std::{fmt, io};

// What an access reads or writes.
#[derive(Clone, Copy)]
pub struct Reading {
    pub point: Point,
    pub width: Width,
    pub value: u32,
}

impl fmt::Display for Reading {
    fn fmt<W: fmt::Write>(&self, f: &mut fmt::Formatter<W>) -> fmt::Result {
        let point = self.point;
        let value = self.value;
        let kind = point.device.kind();
        match (self.width, kind) {
            (Width::Bit, _) => write!(f, "{point} = {value}"),
            (Width::Word, Kind::Word) => write!(f, "{point} = {value} ({value:04X}H)"),
            (Width::Word, Kind::Bit) => {
                let last = point.plus(15);
                let bits = Sixteen(value);
                write!(f, "{point} to {last} = {bits}")
            }
            (Width::Double, Kind::Word) => {
                let second = point.plus(1);
                write!(
                    f,
                    "{point} and {second} as one double word = {value} ({value:08X}H)"
                )
            }
            (Width::Double, Kind::Bit) => {
                let last = point.plus(31);
                write!(
                    f,
                    "{point} to {last} as one double word = {value} ({value:08X}H)"
                )
            }
        }
    }
}

// The bits of a word, the lowest number first.
#[derive(Clone, Copy)]
struct Sixteen(u32);

impl fmt::Display for Sixteen {
    fn fmt<W: fmt::Write>(&self, f: &mut fmt::Formatter<W>) -> fmt::Result {
        let word = self.0;
        // The index is the number of the bit.
        for i in 0..16u32 {
            if i > 0 && i % 4 == 0 {
                f.write_str(" ")?;
            }
            let bit = (word >> i) % 2;
            write!(f, "{bit}")?;
        }
        write!(f, ", the lowest number first (as a word {word:04X}H)")
    }
}

// The ending of a plural.
pub fn plural(count: u16) -> &'static str {
    match count {
        1 => "",
        _ => "s",
    }
}

// Tells what divides a value from the one before.
pub fn tell_comma(rt: &HostRuntime, index: u32) -> io::Result<()> {
    if index > 0 {
        return print!(rt; ", ");
    }
    Ok(())
}

// How many of the values of a row or a list are told: the first 32 at most.
pub fn first_few(count: u32) -> u32
    ensures { result ≡ cond (nat_le count 32) count 32 }
{
    count.min(32)
}

// Tells how many values were not told.
pub fn tell_more(rt: &HostRuntime, count: u32) -> io::Result<()> {
    let more = count - first_few(count);
    if more > 0 {
        return print!(rt; ", and {more} more");
    }
    Ok(())
}

// Tells that a row or a list cannot be read from an index on.
pub fn tell_unread(rt: &HostRuntime, index: u32) -> io::Result<()> {
    if index > 0 {
        return print!(rt; " .. and what follows cannot be read");
    }
    print!(rt; "what follows cannot be read")
}
