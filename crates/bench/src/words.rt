// Points, values, causes and refusals in plain words.
ghost use Rattle.std.specs.Prelude.{◌≡◌};
ghost use Rattle.bench.specs.Names.{layer_text, flag_text};

use device::{Device, Kind, Notation};
use frame::{Cause, Fault, Layer};
use memory::Refusal;
use std::fmt;

// A device by its symbol, without the star that fills it on the wire.
#[derive(Clone, Copy)]
pub struct Symbol(pub Device);

impl fmt::Display for Symbol {
    fn fmt<W: fmt::Write>(&self, f: &mut fmt::Formatter<W>) -> fmt::Result {
        let [first, second] = self.0.symbol();
        write!(f, "{}", first as char)?;
        if second != b'*' {
            write!(f, "{}", second as char)?;
        }
        Ok(())
    }
}

// A point by its device's symbol and its number, in the device's notation.
#[derive(Clone, Copy, PartialEq, Eq, Debug)]
pub struct Point {
    pub device: Device,
    pub number: u32,
}

impl Point {
    // The point so many numbers behind.
    pub fn plus(self, points: u32) -> Point {
        Point {
            device: self.device,
            number: self.number.saturating_add(points),
        }
    }

    // A value that it holds, as it is told.
    pub fn holding(self, value: u16) -> Value {
        Value {
            kind: self.device.kind(),
            value,
        }
    }
}

impl fmt::Display for Point {
    fn fmt<W: fmt::Write>(&self, f: &mut fmt::Formatter<W>) -> fmt::Result {
        let symbol = Symbol(self.device);
        let number = self.number;
        match self.device.notation() {
            Notation::Decimal => write!(f, "{symbol}{number}"),
            Notation::Hexadecimal => write!(f, "{symbol}{number:X}"),
        }
    }
}

// A point that a script names by its decimal number, which is told too where the device's notation shows another.
#[derive(Clone, Copy)]
pub struct Named(pub Point);

impl fmt::Display for Named {
    fn fmt<W: fmt::Write>(&self, f: &mut fmt::Formatter<W>) -> fmt::Result {
        let point = self.0;
        let number = point.number;
        match point.device.notation() {
            Notation::Hexadecimal if number > 9 => write!(f, "{point} (decimal {number})"),
            _ => write!(f, "{point}"),
        }
    }
}

// The name of a kind.
// A function: the enum is another crate's, the text is printed in one place, and a type round it with a Display would be eight lines more.
fn kind_name(kind: Kind) -> &'static str {
    match kind {
        Kind::Bit => "bit",
        Kind::Word => "word",
    }
}

// How many points a device has, and which.
#[derive(Clone, Copy)]
pub struct Extent {
    pub device: Device,
    pub points: u32,
}

impl fmt::Display for Extent {
    fn fmt<W: fmt::Write>(&self, f: &mut fmt::Formatter<W>) -> fmt::Result {
        let device = self.device;
        let symbol = Symbol(device);
        let points = self.points;
        if points == 0 {
            return write!(f, "{symbol} has no points");
        }
        let kind = kind_name(device.kind());
        let first = Point { device, number: 0 };
        let last = Point {
            device,
            number: points - 1,
        };
        if points == 1 {
            return write!(f, "{symbol} has 1 {kind} point, {first}");
        }
        write!(f, "{symbol} has {points} {kind} points, {first} to {last}")
    }
}

// What a point of a device holds: a bit as 0 or 1, a word in decimal and in hexadecimal.
#[derive(Clone, Copy)]
pub struct Value {
    pub kind: Kind,
    pub value: u16,
}

impl fmt::Display for Value {
    fn fmt<W: fmt::Write>(&self, f: &mut fmt::Formatter<W>) -> fmt::Result {
        let value = self.value;
        match self.kind {
            Kind::Bit => write!(f, "{value}"),
            Kind::Word => write!(f, "{value} ({value:04X}H)"),
        }
    }
}

// The number of a cause: in decimal up to 13, and an end code as four hexadecimal digits.
#[derive(Clone, Copy)]
pub struct CauseNumber(pub Cause);

impl fmt::Display for CauseNumber {
    fn fmt<W: fmt::Write>(&self, f: &mut fmt::Formatter<W>) -> fmt::Result {
        let number = self.0.number();
        if number <= 13 {
            write!(f, "{number}")
        } else {
            write!(f, "{number:04X}")
        }
    }
}

// The name of a layer.
// A function and no Display: its contract gives the text, and a Display has no clause that could.
pub fn layer_name(layer: Layer) -> &'static str
    ensures { result.now ≡ layer_text layer }
{
    match layer {
        Layer::Frame => "frame",
        Layer::Sheet => "sheet",
        Layer::Device => "device",
        Layer::Request => "request",
    }
}

// A fault as it stands in an answer: its number, its place and its layer; none where there is none.
#[derive(Clone, Copy)]
pub struct FaultShown(pub Option<Fault>);

impl fmt::Display for FaultShown {
    fn fmt<W: fmt::Write>(&self, f: &mut fmt::Formatter<W>) -> fmt::Result {
        match self.0 {
            None => write!(f, "none"),
            Some(fault) => {
                let cause = CauseNumber(fault.cause);
                let place = fault.place;
                let layer = layer_name(fault.layer());
                write!(f, "{cause} at {place} {layer}")
            }
        }
    }
}

// The name of a flag's state.
// A function and no Display: its contract gives the text, and a Display has no clause that could.
pub fn flag_name(flag: bool) -> &'static str
    ensures { result.now ≡ flag_text flag }
{
    if flag { "on" } else { "off" }
}

// What a cause says.
// A cause has three texts, of which this is one, so none of them is its Display.
pub fn cause_words(cause: Cause) -> &'static str {
    match cause {
        Cause::NoReplySpace => "the space for the reply is under 4096 bytes",
        Cause::Incomplete => "the frame is not all there",
        Cause::BadSubheader => "the frame begins neither as a 3E nor as a 4E request does",
        Cause::BadDigit => "a character of the header is no hexadecimal digit",
        Cause::NonZero => "the word behind the serial number is not zero",
        Cause::BadLength => "the length is out of range",
        Cause::NoVersion => "the sheet does not begin with the version byte 01",
        Cause::BadRecord => "the record is cut off, or has bytes after its frame",
        Cause::WriteOff => "writing is switched off",
        Cause::DataDigit => "a character of the data is no digit",
        Cause::BitCount => "the number of bit points is not from 1 to 3584",
        Cause::WordCount => "the number of words is not from 1 to 960",
        Cause::RandomBitCount => "the number of bit accesses is not from 1 to 188",
        Cause::RandomCount => "the numbers of word and double word accesses are out of range",
        Cause::OutsideExtent => "points outside the device's extent",
        Cause::UnknownCommand => "the command is not known with its subcommand",
        Cause::UnknownDevice => "no device has this code or symbol",
        Cause::WrongKind => "a word device where a bit device is wanted",
        Cause::NotRegistered => "nothing is registered to be monitored",
        Cause::ClosedPoint => "a point is closed to writing",
        Cause::BadValue =>
            "a bit is neither 0 nor 1, or the filling of an odd number of bits is not 0",
        Cause::BadSize => "the data end too early, or too late",
    }
}

// The part of the frame that a cause is found in.
pub fn field_words(cause: Cause) -> &'static str {
    match cause {
        Cause::NoReplySpace => "the front",
        Cause::Incomplete => "the end of what was given",
        Cause::BadSubheader => "the subheader",
        Cause::BadDigit => "a digit of the header",
        Cause::NonZero => "the zero word",
        Cause::BadLength => "the length field",
        Cause::NoVersion => "the version byte",
        Cause::BadRecord => "the record",
        Cause::WriteOff | Cause::UnknownCommand | Cause::NotRegistered => "the command",
        Cause::DataDigit => "a digit of the data",
        Cause::BitCount | Cause::WordCount => "the field of the points",
        Cause::RandomBitCount | Cause::RandomCount => "the field of the counts",
        Cause::OutsideExtent | Cause::UnknownDevice | Cause::WrongKind | Cause::ClosedPoint => {
            "the device field"
        }
        Cause::BadValue => "the field of the values",
        Cause::BadSize => "where a field is missing or bytes are left over",
    }
}

// Why a point was not set.
// A function: the enum is another crate's, the text is printed in one place, and a type round it with a Display would be eight lines more.
pub fn refusal_words(refusal: Refusal) -> &'static str {
    match refusal {
        Refusal::NoRoom => "the memory has no room",
        Refusal::NoLock => "the range cannot be locked",
        Refusal::Outside => "the point lies outside the device's extent",
        Refusal::Closed => "the point is locked against writing",
        Refusal::TooWide => "a bit point holds 0 or 1 alone",
    }
}
