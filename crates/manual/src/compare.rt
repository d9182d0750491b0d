// Runs a row on the server and compares what comes of it.
use crate::frames::{bytes_of, refusal, reply, request, text_of};
use crate::points::{first_unlike, set_points};
use crate::rows::Row;
use crate::verdict::Verdict;
use anyhow::anyhow;
use memory::{PackedTables, ReadableMemory, WritableMemory, words_needed};
use server::{Answer, Registration, Settings, take_frame};
use std::alloc::Global;
use wire::Code;

// The points of each device.
const EXTENT: u32 = 2048;

// Whether a text is that of a pattern, in which a question mark stands for any character.
fn is_like(pattern: &str, text: &str) -> bool {
    pattern.len() == text.len()
        && pattern
            .bytes()
            .zip(text.bytes())
            .all(|(wanted, found)| wanted == b'?' || wanted == found)
}

// The verdict on the points that a served row leaves.
fn judge_points<M: ReadableMemory>(
    heap: Global,
    row: &Row<'_>,
    memory: &M,
) -> anyhow::Result<Verdict> {
    match first_unlike(memory, row.after)? {
        Some((listed, found)) => Ok(Verdict::Differs {
            expected: format!(in heap; "{listed}")?,
            got: format!(in heap; "{found}")?,
        }),
        None => Ok(Verdict::Same),
    }
}

// The end code of an answer: 0 if the request was accepted, as a reply carries it.
fn end_of(answer: Answer) -> u16 {
    answer.fault.map_or(0, |fault| fault.cause.number())
}

// Sends the request of a row; the end code, and the reply as text.
fn answer_to<M: WritableMemory>(
    heap: Global,
    row: &Row<'_>,
    memory: &mut M,
    registration: &mut Registration,
) -> anyhow::Result<(u16, String)> {
    let text = request(heap, row.code, row.request)?;
    let frame = bytes_of(heap, row.code, text.as_str())?;
    let settings = Settings { write_flag: true };
    let mut space = [0u8; 4096];
    let answer = take_frame(
        row.code,
        frame.as_slice(),
        &mut space,
        memory,
        &settings,
        registration,
    );
    let bytes = space
        .get(0..answer.length)
        .ok_or_else(|| anyhow!("a reply is longer than its space"))?;
    Ok((end_of(answer), text_of(heap, row.code, bytes)?))
}

// The reply that a row calls for: its own, or a refusal with the end code that came.
fn reply_for(heap: Global, row: &Row<'_>, end: u16) -> anyhow::Result<String> {
    if row.is_served() {
        reply(heap, row.code, 0, row.response)
    } else {
        refusal(heap, row.code, end, row.command, row.subcommand)
    }
}

// The verdict on a row over a memory.
fn judge_over<M: WritableMemory>(
    heap: Global,
    row: &Row<'_>,
    memory: &mut M,
    registration: &mut Registration,
) -> anyhow::Result<Verdict> {
    set_points(memory, row.initial)?;
    let (end, got) = answer_to(heap, row, memory, registration)?;
    let expected = reply_for(heap, row, end)?;
    let accepted = end == 0;
    if accepted != row.is_served() || !is_like(expected.as_str(), got.as_str()) {
        return Ok(Verdict::Differs { expected, got });
    }
    if accepted {
        judge_points(heap, row, memory)
    } else {
        Ok(Verdict::Refused(end))
    }
}

// The verdict on a row over tables whose words are all alike before its points are set.
fn judge_filled(
    heap: Global,
    row: &Row<'_>,
    fill: u16,
    registration: &mut Registration,
) -> anyhow::Result<Verdict> {
    let extents = [EXTENT; 12];
    let needed = words_needed(&extents).map_err(|_| anyhow!("the extents are too large"))?;
    let mut words = vec![in heap; fill; needed]?;
    let mut tables = PackedTables::new(words.as_mut_slice(), extents);
    judge_over(heap, row, &mut tables, registration)
}

// The verdict on a row, whatever the points hold that it leaves open: they are all 0, and then all 1.
fn judge_twice(
    heap: Global,
    row: &Row<'_>,
    registration: &mut Registration,
) -> anyhow::Result<Verdict> {
    match judge_filled(heap, row, 0x0000, registration)? {
        differs @ Verdict::Differs { .. } => Ok(differs),
        _ => judge_filled(heap, row, 0xFFFF, registration),
    }
}

// A server for each code: what one row registers, a later row of that code monitors.
#[derive(Clone, Copy)]
pub struct Servers {
    ascii: Registration,
    binary: Registration,
}

impl Servers {
    pub fn new() -> Servers {
        Servers {
            ascii: Registration::new(),
            binary: Registration::new(),
        }
    }

    pub fn judge(&mut self, heap: Global, row: &Row<'_>) -> anyhow::Result<Verdict> {
        match row.code {
            Code::Ascii => judge_twice(heap, row, &mut self.ascii),
            Code::Binary => judge_twice(heap, row, &mut self.binary),
        }
    }
}
