// The lines of a script.
use crate::cutting::trimmed;
use crate::expected::Expected;
use crate::line::{Line, read_line};
use std::alloc::{AllocError, Global};

// A line that cannot be read, by its number from 1 on.
#[derive(Clone, Copy, PartialEq, Eq, Debug)]
pub struct Unread {
    pub line: usize,
    pub expected: Expected,
}

// The lines of a script that say something, up to its first one that cannot be read.
#[derive(Drop)]
pub struct Script {
    pub lines: Vec<Line>,
    pub unread: Option<Unread>,
}

// Reads a line, if it says something, and adds it to the lines: a blank line and a comment say nothing.
fn add_line(heap: Global, lines: &mut Vec<Line>, text: &[u8]) -> Result<(), Expected> {
    if matches!(text, [] | [b'#', ..]) {
        return Ok(());
    }
    let line = read_line(heap, text)?;
    lines.push(line)?;
    Ok(())
}

// Reads a script, and stops at the first line that cannot be read.
pub fn read_script(heap: Global, text: &[u8]) -> Result<Script, AllocError> {
    let mut lines = Vec::new(heap);
    for (line, words) in (1usize..).zip(text.split(|byte| *byte == b'\n')) {
        if let Err(expected) = add_line(heap, &mut lines, trimmed(words)) {
            return Ok(Script {
                lines,
                unread: Some(Unread { line, expected }),
            });
        }
    }
    Ok(Script {
        lines,
        unread: None,
    })
}
