// A line of a script.
use crate::cutting::Words;
use crate::expected::Expected;
use crate::extents::read_memory;
use crate::frames::{read_frame, read_run};
use crate::numbers::{read_number, read_value};
use crate::parts::read_point;
use crate::size::SpaceSize;
use crate::words::Point;
use memory::Range;
use std::alloc::Global;
use wire::Code;

#[derive(Drop)]
pub enum Line {
    // packed tables of these extents, over these words or over zeros of just the needed size
    Packed {
        extents: [u32; 12],
        words: Option<Vec<u16>>,
    },
    // a byte image, likewise
    Image {
        extents: [u32; 12],
        bytes: Option<Vec<u8>>,
    },
    Lock(Range),
    // a server set up with this write flag
    Server(bool),
    Set {
        point: Point,
        value: u16,
    },
    Look(Point),
    Frame {
        code: Code,
        space: SpaceSize,
        bytes: Vec<u8>,
    },
    // opens a calibration window
    Open,
    // ends the calibration window
    End,
    // runs a sheet of recorded frames, and takes at most `cancel` of them
    Run {
        code: Code,
        cancel: usize,
        space: SpaceSize,
        sheet: Vec<u8>,
    },
    // shows the server and the storage
    Final,
}

// D 3 9
fn read_lock(words: &mut Words<'_>) -> Result<Line, Expected> {
    let first = read_point(words)?;
    Ok(Line::Lock(Range {
        device: first.device,
        first: first.number,
        last: read_number(words.next())?,
    }))
}

// on, or off
fn read_server(words: &mut Words<'_>) -> Result<Line, Expected> {
    match words.next() {
        b"on" => Ok(Line::Server(true)),
        b"off" => Ok(Line::Server(false)),
        _ => Err(Expected::Flag),
    }
}

// D 2 4660
fn read_set(words: &mut Words<'_>) -> Result<Line, Expected> {
    Ok(Line::Set {
        point: read_point(words)?,
        value: read_value(words.next())?,
    })
}

// Reads a line by its first word, up to what has to be its end.
fn read_plain(name: &[u8], words: &mut Words<'_>) -> Result<Line, Expected> {
    match name {
        b"lock" => read_lock(words),
        b"server" => read_server(words),
        b"set" => read_set(words),
        b"look" => Ok(Line::Look(read_point(words)?)),
        b"open" => Ok(Line::Open),
        b"end" => Ok(Line::End),
        b"final" => Ok(Line::Final),
        _ => Err(Expected::Call),
    }
}

// Reads a line by its first word.
pub fn read_line(heap: Global, line: &[u8]) -> Result<Line, Expected> {
    let mut words = Words::new(line);
    match words.next() {
        b"memory" => read_memory(heap, words),
        b"frame" => read_frame(heap, words),
        b"run" => read_run(heap, words),
        name => {
            let line = read_plain(name, &mut words)?;
            words.ended()?;
            Ok(line)
        }
    }
}
