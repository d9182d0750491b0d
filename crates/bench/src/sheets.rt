// Sheets: run on the bench, and told.
use crate::bench::Bench;
use crate::coded::Coded;
use crate::faults::tell_stopped;
use crate::records::{first_frames, last_registration};
use crate::registered::Registered;
use crate::space::{kept, or_dash, space_text};
use crate::storage::Storage;
use crate::telling::{tell_recorded, tell_text};
use crate::words::FaultShown;
use frame::{Fault, Layer};
use memory::WritableMemory;
use sheet::{Reason, RunEnd, run_sheet};
use std::io;
use wire::Code;

// The fault that a run stopped at, if it did.
fn fault_of(reason: Reason) -> Option<Fault> {
    match reason {
        Reason::Stopped(fault) => Some(fault),
        Reason::Finished | Reason::Cancelled => None,
    }
}

// How a run ended, in a word.
// A function: the enum is another crate's, the text is printed in one place, and a type round it with a Display would be eight lines more.
fn reason_name(reason: Reason) -> &'static str {
    match reason {
        Reason::Finished => "finished",
        Reason::Cancelled => "cancelled",
        Reason::Stopped(_) => "stopped",
    }
}

// How many frames of the sheet were answered: those without an error, and one that an error reply stopped the run at.
fn answered(end: RunEnd) -> usize {
    match fault_of(end.reason).map(|fault| fault.layer()) {
        Some(Layer::Device | Layer::Request) => end.count.saturating_add(1),
        _ => end.count,
    }
}

// Prints how a run ended.
fn show_end(rt: &HostRuntime, end: RunEnd, space: &[u8]) -> io::Result<()> {
    let text = space_text(rt.alloc(), space)?;
    let digits = or_dash(text.as_str());
    let name = reason_name(end.reason);
    let count = end.count;
    let next = end.next;
    let fault = FaultShown(fault_of(end.reason));
    println!(rt; "run {name} count {count} next {next} fault {fault} {digits}")
}

// Tells what the frames that were answered asked for.
fn tell_frames(rt: &HostRuntime, code: Code, space: usize, frames: &[&[u8]]) -> io::Result<()> {
    for (number, bytes) in (1usize..).zip(frames) {
        print!(rt; "  frame {number}: ")?;
        tell_recorded(
            rt,
            Coded {
                code,
                bytes: *bytes,
            },
            space,
        )?;
    }
    Ok(())
}

// Tells how many frames were answered with 0000, and why the run ended.
fn tell_reason(rt: &HostRuntime, end: RunEnd, cancel: usize) -> io::Result<()> {
    match end.count {
        0 => println!(rt; "  no frame was answered with 0000")?,
        1 => println!(rt; "  1 frame was answered with 0000")?,
        count => println!(rt; "  {count} frames were answered with 0000")?,
    }
    let number = end.count.saturating_add(1);
    match end.reason {
        Reason::Finished => println!(rt; "  finished: no record is left"),
        Reason::Cancelled => println!(rt;
            "  cancelled before frame {number}: the cancel number is {cancel}"
        ),
        Reason::Stopped(fault) => tell_stopped(rt, number, fault, end.next),
    }
}

// Tells where in the sheet the run would go on.
fn tell_next(rt: &HostRuntime, end: RunEnd) -> io::Result<()> {
    let next = end.next;
    match end.reason {
        Reason::Finished => println!(rt; "  the sheet ends at byte {next} (counted from 0)"),
        Reason::Cancelled | Reason::Stopped(_) => println!(rt;
            "  the run would go on at byte {next} of the sheet (counted from 0)"
        ),
    }
}

// Tells the reply space of a run in ASCII as text, if a reply was written.
fn tell_reply(rt: &HostRuntime, code: Code, space: &[u8]) -> io::Result<()> {
    let size = kept(space);
    if size == 0 {
        return Ok(());
    }
    tell_text(rt, code, "reply space", &space[0..size])
}

impl<M: WritableMemory + Storage> Bench<M> {
    // Runs a sheet, unless a window is open, and tells what came of it.
    pub fn run(
        &mut self,
        rt: &HostRuntime,
        code: Code,
        cancel: usize,
        space: usize,
        sheet: &[u8],
    ) -> io::Result<()> {
        if self.window {
            println!(rt; "run refused")?;
            return println!(rt;
                "  a run opens a calibration window of its own, and one is open already: nothing was carried out"
            );
        }
        let mut reply = vec![in rt.alloc(); 0xEEu8; space]?;
        let end = run_sheet(&mut self.server, code, sheet, cancel, reply.as_mut_slice());
        show_end(rt, end, reply.as_slice())?;
        let frames = first_frames(rt.alloc(), sheet, answered(end))?;
        tell_frames(rt, code, space, frames.as_slice())?;
        tell_reason(rt, end, cancel)?;
        tell_next(rt, end)?;
        tell_reply(rt, code, reply.as_slice())?;
        let accepted = end.count.min(frames.len());
        if let Some(frame) = last_registration(code, space, &frames.as_slice()[..accepted]) {
            self.registered = Some(Registered::new(rt.alloc(), frame)?);
        }
        Ok(())
    }
}
