// Lines of a script that follow one another as calls of a history: carried out by one replay, and then told one by one.
use crate::bench::Bench;
use crate::line::Line;
use crate::storage::Storage;
use history::{Call, Replayed, replay};
use memory::WritableMemory;
use server::Server;
use std::alloc::{AllocError, Global};
use std::io;

// A reply space before the call: so that what a reply leaves untouched shows, each byte is EE.
static UNTOUCHED: [u8; 65536] = [0xEE; 65536];

// The call that a line makes, if it makes one.
fn call_of(line: &Line) -> Option<Call<'_>> {
    match line {
        Line::Frame { code, space, bytes } => Some(Call::Frame {
            code: *code,
            bytes: bytes.as_slice(),
            space: &UNTOUCHED[..space.bytes],
        }),
        Line::Set { point, value } => Some(Call::Set {
            device: point.device,
            number: point.number,
            value: *value,
        }),
        Line::Open => Some(Call::Open),
        Line::End => Some(Call::End),
        _ => None,
    }
}

// Whether a line makes a call of a history.
pub fn is_call(line: &Line) -> bool {
    call_of(line).is_some()
}

// The calls of the lines, with an opening before them where a window is to stand from the start.
fn calls_of<'a>(
    heap: Global,
    window: bool,
    lines: &'a [Line],
) -> Result<Vec<Call<'a>>, AllocError> {
    let mut calls = Vec::new(heap);
    if window {
        calls.push(Call::Open)?;
    }
    for call in lines.iter().filter_map(call_of) {
        calls.push(call)?;
    }
    Ok(calls)
}

// Carries out the calls of the lines.
fn replay_lines<M: WritableMemory>(
    heap: Global,
    server: &mut Server<M>,
    window: bool,
    lines: &[Line],
) -> Result<Replayed, AllocError> {
    let calls = calls_of(heap, window, lines)?;
    Ok(replay(heap, server, calls.as_slice()))
}

impl<M: WritableMemory + Storage> Bench<M> {
    // Carries out lines that all make calls, and tells what came of each. A window ends with the replay that it is open in, so one that the
    // lines before left open is opened again first: no frame was served in between.
    pub fn replay(&mut self, rt: &HostRuntime, lines: &[Line]) -> io::Result<()> {
        if lines.is_empty() {
            return Ok(());
        }
        let window = self.window;
        let Replayed { outcomes, end } = replay_lines(rt.alloc(), &mut self.server, window, lines)?;
        let untold = usize::from(window);
        for (line, outcome) in lines.iter().zip(outcomes.iter().skip(untold)) {
            self.tell_outcome(rt, line, outcome)?;
        }
        end?;
        Ok(())
    }
}
