// Rows of points in a batch request or its reply: read, and told in plain words.
ghost use Rattle.std.specs.Prelude.{◌^◌, ◌<◌, ◌≤◌};

use crate::coded::Coded;
use crate::reading::{Reading, first_few, plural, tell_comma, tell_more, tell_unread};
use crate::width::Width;
use crate::words::Point;
use device::{Device, Kind};
use std::{fmt, io};

// A row of points that a request speaks of: so many words or bits from a point on.
#[derive(Clone, Copy)]
pub struct Row {
    pub unit: Width,
    device: Device,
    number: u32,
    count: u16,
    // where the field behind the count stands
    pub next: usize,
    ghost small: { number < 2 ^ 24 },
}

impl Row {
    // The row of a batch request whose device field stands at `at`.
    pub fn read(frame: Coded<'_>, at: usize, unit: Width) -> Option<Row> {
        let (device, number, next) = frame.device(at)?;
        let (count, next) = frame.word(next)?;
        Some(Row {
            unit,
            device,
            number,
            count,
            next,
        })
    }

    // How many points one of its values has.
    fn step(self) -> u32
        ensures { result ≤ 16 }
    {
        match (self.unit, self.device.kind()) {
            (Width::Word, Kind::Bit) => 16,
            _ => 1,
        }
    }

    // The value of an index, whose field stands at `at` where values have fields of their own; and where the next one stands.
    fn value(self, data: Coded<'_>, index: u32, at: usize) -> Option<(u16, usize)> {
        match self.unit {
            Width::Bit => Some((data.bit(index as usize)?, at)),
            _ => data.word(at),
        }
    }
}

// How many words or bits there are, and from which point on.
impl fmt::Display for Row {
    fn fmt<W: fmt::Write>(&self, f: &mut fmt::Formatter<W>) -> fmt::Result {
        let count = self.count;
        let unit = self.unit;
        let s = plural(count);
        let of = if self.step() == 16 {
            " of 16 points"
        } else {
            ""
        };
        let point = Point {
            device: self.device,
            number: self.number,
        };
        write!(f, "{count} {unit}{s}{of} from {point}")
    }
}

// Tells the values of a row, which stand at the front of `data`.
pub fn tell_row(rt: &HostRuntime, row: Row, data: Coded<'_>) -> io::Result<()> {
    if row.count == 0 {
        return print!(rt; "nothing");
    }
    let mut at = 0;
    // The index gives the point, and a field stands where the one before ends: a chain would have to carry both.
    for i in 0..first_few(u32::from(row.count)) {
        let Some((value, next)) = row.value(data, i, at) else {
            return tell_unread(rt, i);
        };
        tell_comma(rt, i)?;
        let reading = Reading {
            point: Point {
                device: row.device,
                number: row.number + i * row.step(),
            },
            width: row.unit,
            value: u32::from(value),
        };
        print!(rt; "{reading}")?;
        at = next;
    }
    tell_more(rt, u32::from(row.count))
}
