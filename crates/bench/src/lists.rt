// The lists of accesses that a request carries, in plain words.
use crate::coded::Coded;
use crate::reading::{Reading, first_few, plural, tell_comma, tell_more, tell_unread};
use crate::width::Width;
use crate::words::Point;
use device::{Device, Kind};
use std::{fmt, io};

// A list: so many bits or words, and behind them so many double words.
#[derive(Clone, Copy)]
pub struct List {
    pub unit: Width,
    units: u8,
    doubles: u8,
    // where its first device field stands
    at: usize,
}

// A list in the frame that carries it.
#[derive(Clone, Copy)]
pub struct Listed<'a> {
    pub frame: Coded<'a>,
    pub list: List,
}

// An access of a list.
#[derive(Clone, Copy)]
struct Access {
    device: Device,
    number: u32,
    width: Width,
    // where the field behind its device field stands
    next: usize,
}

impl List {
    // The list of a random write in bits: a count, and then its accesses.
    pub fn of_bits(frame: Coded<'_>, at: usize) -> Option<List> {
        let (units, at) = frame.byte(at)?;
        Some(List {
            unit: Width::Bit,
            units,
            doubles: 0,
            at,
        })
    }

    // The list of any other request: the count of words, that of double words, and then its accesses.
    pub fn of_words(frame: Coded<'_>, at: usize) -> Option<List> {
        let (units, at) = frame.byte(at)?;
        let (doubles, at) = frame.byte(at)?;
        Some(List {
            unit: Width::Word,
            units,
            doubles,
            at,
        })
    }

    fn total(self) -> u32 {
        u32::from(self.units) + u32::from(self.doubles)
    }

    // What the access of an index reaches.
    fn width(self, index: u32) -> Width {
        if index < u32::from(self.units) {
            self.unit
        } else {
            Width::Double
        }
    }
}

// How many accesses of each width there are.
impl fmt::Display for List {
    fn fmt<W: fmt::Write>(&self, f: &mut fmt::Formatter<W>) -> fmt::Result {
        let units = self.units;
        let unit = self.unit;
        let doubles = self.doubles;
        if units > 0 || doubles == 0 {
            let s = plural(u16::from(units));
            write!(f, "{units} {unit}{s}")?;
        }
        if units > 0 && doubles > 0 {
            f.write_str(" and ")?;
        }
        if doubles > 0 {
            let s = plural(u16::from(doubles));
            write!(f, "{doubles} double word{s}")?;
        }
        Ok(())
    }
}

impl Access {
    // The access whose device field stands at `at`.
    fn read(frame: Coded<'_>, at: usize, width: Width) -> Option<Access> {
        let (device, number, next) = frame.device(at)?;
        Some(Access {
            device,
            number,
            width,
            next,
        })
    }

    fn point(self) -> Point {
        Point {
            device: self.device,
            number: self.number,
        }
    }

    // Tells its value, which stands at `at`, and says where the next field does: there too, where the value is not there.
    fn tell_value(self, rt: &HostRuntime, data: Coded<'_>, at: usize) -> io::Result<usize> {
        let Some((value, next)) = data.number(at, self.width) else {
            print!(rt; "{self} (no value)")?;
            return Ok(at);
        };
        let reading = Reading {
            point: self.point(),
            width: self.width,
            value,
        };
        print!(rt; "{reading}")?;
        Ok(next)
    }
}

// Which points an access reaches.
impl fmt::Display for Access {
    fn fmt<W: fmt::Write>(&self, f: &mut fmt::Formatter<W>) -> fmt::Result {
        let point = self.point();
        match (self.device.kind(), self.width) {
            (Kind::Bit, Width::Word) => write!(f, "{point} (16 points as a word)"),
            (Kind::Bit, Width::Double) => write!(f, "{point} (32 points as a double word)"),
            (Kind::Word, Width::Double) => {
                let second = point.plus(1);
                write!(f, "{point} and {second} as a double word")
            }
            _ => write!(f, "{point}"),
        }
    }
}

impl Listed<'_> {
    // Tells each access by `tell`, which says where the next device field stands.
    fn tell_each<F: FnMut(Access) -> io::Result<usize>>(
        self,
        rt: &HostRuntime,
        mut tell: F,
    ) -> io::Result<()>
        requires { F.IsAlwaysCallable tell }
    {
        let list = self.list;
        let mut at = list.at;
        if list.total() == 0 {
            return print!(rt; "nothing");
        }
        // The index says what an access reaches, and its field stands where the one before ends: a chain would have to carry both.
        for i in 0..first_few(list.total()) {
            let Some(access) = Access::read(self.frame, at, list.width(i)) else {
                return tell_unread(rt, i);
            };
            tell_comma(rt, i)?;
            at = tell(access)?;
        }
        tell_more(rt, list.total())
    }

    // Tells the accesses.
    pub fn tell(self, rt: &HostRuntime) -> io::Result<()> {
        self.tell_each(rt, |access| {
            print!(rt; "{access}")?;
            Ok(access.next)
        })
    }

    // Tells the accesses with the values that stand behind each of them.
    pub fn tell_writes(self, rt: &HostRuntime) -> io::Result<()> {
        self.tell_each(rt, |access| access.tell_value(rt, self.frame, access.next))
    }

    // Tells the accesses with the values that the data of a reply, in a code of its own, have for them.
    pub fn tell_values(self, rt: &HostRuntime, data: Coded<'_>) -> io::Result<()> {
        let mut from = 0;
        self.tell_each(rt, |access| {
            from = access.tell_value(rt, data, from)?;
            Ok(access.next)
        })
    }
}
