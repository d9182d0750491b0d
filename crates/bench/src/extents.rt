// The lines of a script that make a memory.
ghost use Rattle.std.specs.Prelude.{◌≡◌, cond, is_some, Some, Ok, Err};
ghost use Rattle.bench.specs.declared.expected.Expected.TheVariants.{Extents};

use crate::cutting::{Words, split_once};
use crate::expected::Expected;
use crate::line::Line;
use crate::numbers::read_number;
use crate::parts::{read_hex, read_hex_words, read_symbol};
use device::Device;
use std::alloc::Global;

// One device with its extent, as D=16.
fn read_extent(part: &[u8]) -> Result<(Device, u32), Expected> {
    let (symbol, points) = split_once(part, b'=').ok_or(Expected::Extents)?;
    Ok((read_symbol(symbol)?, read_number(points)?))
}

// Gives a device its extent, which no earlier part may have given it.
fn name_once(extent: &mut Option<u32>, points: u32) -> Result<(), Expected>
    ensures answer { result ≡ cond (is_some extent.old) (Err Extents) (Ok tt) }
    ensures named { extent.new ≡ Some points }
{
    match extent.replace(points) {
        Some(_) => Err(Expected::Extents),
        None => Ok(()),
    }
}

// Extents by symbol, divided by commas; a device that is not named has no points.
fn read_extents(word: &[u8]) -> Result<[u32; 12], Expected> {
    let mut named: [Option<u32>; 12] = [None; 12];
    if word == b"-".as_slice() {
        return Ok([0; 12]);
    }
    for part in word.split(|byte| *byte == b',') {
        if named.iter().all(|points| points.is_some()) {
            return Err(Expected::Extents);
        }
        let (device, points) = read_extent(part)?;
        name_once(&mut named[device.place()], points)?;
    }
    Ok(named.map(|points| points.unwrap_or(0)))
}

// The extents of a memory, and what its storage holds, if the line says so.
fn read_storage<T: Drop, F: FnOnce(Global, &[u8]) -> Result<Vec<T>, Expected>>(
    heap: Global,
    mut words: Words<'_>,
    read: F,
) -> Result<([u32; 12], Option<Vec<T>>), Expected>
    requires { F.IsAlwaysCallable read }
{
    let extents = read_extents(words.next())?;
    if words.is_empty() {
        return Ok((extents, None));
    }
    let digits = words.next();
    words.ended()?;
    Ok((extents, Some(read(heap, digits)?)))
}

// packed D=16,M=64 [HEX], or image ..
pub fn read_memory(heap: Global, mut words: Words<'_>) -> Result<Line, Expected> {
    match words.next() {
        b"packed" => {
            let (extents, words) = read_storage(heap, words, read_hex_words)?;
            Ok(Line::Packed { extents, words })
        }
        b"image" => {
            let (extents, bytes) = read_storage(heap, words, read_hex)?;
            Ok(Line::Image { extents, bytes })
        }
        _ => Err(Expected::Form),
    }
}
