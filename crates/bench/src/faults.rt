// Faults in plain words.
use crate::words::{CauseNumber, cause_words, field_words};
use frame::{Cause, Fault, Layer};
use std::io;

// Tells where a fault was found.
fn tell_place(rt: &HostRuntime, fault: Fault) -> io::Result<()> {
    let place = fault.place;
    let whole = match fault.layer() {
        Layer::Sheet => "sheet",
        _ => "frame",
    };
    let field = field_words(fault.cause);
    print!(rt; "; found at byte {place} of the {whole} (counted from 0), {field}")
}

// Tells why a frame was not taken up.
pub fn tell_declined(rt: &HostRuntime, fault: Fault, given: usize) -> io::Result<()> {
    let cause = CauseNumber(fault.cause);
    let words = cause_words(fault.cause);
    print!(rt; "  not taken up ({cause}): {words}")?;
    match fault.cause {
        Cause::NoReplySpace => {}
        Cause::Incomplete => print!(rt; "; {given} bytes were given")?,
        _ => tell_place(rt, fault)?,
    }
    println!(rt; "; no reply is sent")
}

// Tells why a request was refused.
pub fn tell_refused(rt: &HostRuntime, fault: Fault) -> io::Result<()> {
    let cause = CauseNumber(fault.cause);
    let words = cause_words(fault.cause);
    print!(rt; "  refused with {cause}: {words}")?;
    tell_place(rt, fault)?;
    println!(rt; "")
}

// What a fault says that stopped a run, the record that was not taken standing at `next`.
fn stop_words(fault: Fault, next: usize) -> &'static str {
    match fault.cause {
        Cause::BadRecord if fault.place == next => "its record is cut off",
        Cause::BadRecord => "its record has bytes behind the frame",
        cause => cause_words(cause),
    }
}

// Tells why a run stopped: at which frame, counted from 1, and by what fault.
pub fn tell_stopped(rt: &HostRuntime, number: usize, fault: Fault, next: usize) -> io::Result<()> {
    let cause = CauseNumber(fault.cause);
    let words = stop_words(fault, next);
    let how = match fault.layer() {
        Layer::Frame | Layer::Sheet => "was not taken up",
        Layer::Device | Layer::Request => "was refused",
    };
    match fault.cause {
        Cause::NoVersion => print!(rt; "  stopped before any frame ({cause}): {words}")?,
        _ => print!(rt; "  stopped at frame {number}, which {how} ({cause}): {words}")?,
    }
    if fault.cause != Cause::NoReplySpace {
        tell_place(rt, fault)?;
    }
    println!(rt; "")
}
