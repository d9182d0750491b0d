// Carries out the lines of a script, one memory after the other.
use crate::batch::is_call;
use crate::bench::Bench;
use crate::cutting::length_until;
use crate::line::Line;
use crate::making::{tell_making, units_of};
use crate::storage::{Storage, Unit};
use memory::WritableMemory;
use std::io;

// Whether a line makes a memory.
fn makes_memory(line: &Line) -> bool {
    matches!(line, Line::Packed { .. } | Line::Image { .. })
}

// Carries out lines of which none makes a memory. Those that make calls wait until another kind of line comes.
pub fn run_section<M: WritableMemory + Storage>(
    rt: &HostRuntime,
    memory: &mut M,
    lines: &[Line],
) -> io::Result<()> {
    let mut bench = Bench::new(memory);
    let mut rest = lines;
    // How many lines a turn takes is known only in it.
    loop {
        let (calls, others) = rest.split_at(length_until(rest, |line| !is_call(line)));
        bench.replay(rt, calls)?;
        let Some((line, behind)) = others.split_first() else {
            return Ok(());
        };
        match line {
            Line::Lock(range) => bench = bench.lock(rt, *range)?,
            _ => bench.carry_out(rt, line)?,
        }
        rest = behind;
    }
}

// Makes a memory over the units given or over zeros, tells so, and carries the lines out on it.
fn run_over<U: Unit + Drop>(
    rt: &HostRuntime,
    extents: &[u32; 12],
    given: &Option<Vec<U>>,
    lines: &[Line],
) -> io::Result<()> {
    let mut units = units_of(rt.alloc(), given, extents)?;
    tell_making::<U>(rt, units.len(), extents)?;
    U::run(rt, units.as_mut_slice(), *extents, lines)
}

// Carries out a line that makes a memory, and the lines behind it.
fn run_memory(rt: &HostRuntime, making: &Line, lines: &[Line]) -> io::Result<()> {
    match making {
        Line::Packed { extents, words } => run_over(rt, extents, words, lines),
        Line::Image { extents, bytes } => run_over(rt, extents, bytes, lines),
        _ => Ok(()),
    }
}

// Carries out all lines. Those before the first memory find one that has no points.
pub fn run_lines(rt: &HostRuntime, lines: &[Line]) -> io::Result<()> {
    let (section, mut rest) = lines.split_at(length_until(lines, makes_memory));
    let mut none = [0u16; 0];
    u16::run(rt, &mut none, [0; 12], section)?;
    // Not by `split`: each turn needs the line that makes its memory, which a split at such lines drops.
    while let Some((making, behind)) = rest.split_first() {
        let (section, next) = behind.split_at(length_until(behind, makes_memory));
        run_memory(rt, making, section)?;
        rest = next;
    }
    Ok(())
}
