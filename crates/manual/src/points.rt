// The lists of points in a row: what is set before the request, and what is found after it.
use anyhow::anyhow;
use device::{Device, Kind, Notation, by_symbol};
use memory::{ReadableMemory, WritableMemory};
use std::fmt;

// A point and what it holds.
#[derive(Clone, Copy, PartialEq, Eq)]
pub struct Point {
    device: Device,
    number: u32,
    value: u16,
}

// The device that a point's name begins with, and the digits behind it.
fn device_of(name: &str) -> Option<(Device, &str)> {
    let [first, second, ..] = name.as_bytes() else {
        return None;
    };
    // A symbol has two letters or one, the longer first.
    match by_symbol(*first, *second) {
        Some(device) => Some((device, name.get(2..)?)),
        None => Some((by_symbol(*first, b'*')?, name.get(1..)?)),
    }
}

// The number behind a device, in its notation.
fn number_of(device: Device, digits: &str) -> Option<u32> {
    let radix = match device.notation() {
        Notation::Decimal => 10,
        Notation::Hexadecimal => 16,
    };
    u32::from_str_radix(digits, radix).ok()
}

// A value: hexadecimal digits and H, or a decimal number.
fn value_in(text: &str) -> Option<u16> {
    match text.strip_suffix('H') {
        Some(digits) => u16::from_str_radix(digits, 16).ok(),
        None => u16::from_str_radix(text, 10).ok(),
    }
}

// The point of a name, as `M100` or `TN100`, and its value.
fn point_of(name: &str, value: &str) -> Option<Point> {
    let (device, digits) = device_of(name)?;
    Some(Point {
        device,
        number: number_of(device, digits)?,
        value: value_in(value)?,
    })
}

// The point of a word of a list, as `M100=1` or `TN100=1234H`; none of `M100..M131=any` or `D0=?`, where the value is open or lost.
fn read_entry(word: &str) -> anyhow::Result<Option<Point>> {
    let point = match word.split_once('=') {
        Some((_, "?" | "any")) => return Ok(None),
        Some((name, value)) => point_of(name, value),
        None => None,
    };
    point
        .map(Some)
        .ok_or_else(|| anyhow!("a list of points cannot be read"))
}

// The list of a cell, which may name the row that registers before it.
fn points_in(cell: &str) -> &str {
    if cell == "-" || cell == "all named points=any" {
        return "";
    }
    cell.strip_prefix("registered: ").map_or(cell, |rest| {
        rest.split_once("; ").map_or(rest, |(_, list)| list)
    })
}

// Gives a point its value.
fn set_point<M: WritableMemory>(memory: &mut M, point: Point) -> anyhow::Result<()> {
    memory
        .write(point.device, point.number, point.value)
        .map_err(|_| anyhow!("a point of a list cannot be set"))
}

// Gives the points of a list their values.
pub fn set_points<M: WritableMemory>(memory: &mut M, cell: &str) -> anyhow::Result<()> {
    for word in points_in(cell).split_whitespace() {
        if let Some(point) = read_entry(word)? {
            set_point(memory, point)?;
        }
    }
    Ok(())
}

// What a point holds in the memory.
fn found_at<M: ReadableMemory>(memory: &M, point: Point) -> anyhow::Result<Point> {
    memory
        .read(point.device, point.number)
        .map(|value| Point { value, ..point })
        .ok_or_else(|| anyhow!("a point of a list lies outside"))
}

// The first point of a list that holds another value, as listed and as found.
pub fn first_unlike<M: ReadableMemory>(
    memory: &M,
    cell: &str,
) -> anyhow::Result<Option<(Point, Point)>> {
    for word in points_in(cell).split_whitespace() {
        if let Some(point) = read_entry(word)? {
            let found = found_at(memory, point)?;
            if found != point {
                return Ok(Some((point, found)));
            }
        }
    }
    Ok(None)
}

impl fmt::Display for Point {
    fn fmt<W: fmt::Write>(&self, f: &mut fmt::Formatter<W>) -> fmt::Result {
        let device = self.device;
        let number = self.number;
        let value = self.value;
        match device.notation() {
            Notation::Decimal => write!(f, "{device:?}{number}")?,
            Notation::Hexadecimal => write!(f, "{device:?}{number:X}")?,
        }
        match device.kind() {
            Kind::Bit => write!(f, "={value}"),
            Kind::Word => write!(f, "={value:04X}H"),
        }
    }
}
