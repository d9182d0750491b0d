// Runs of sheets.
ghost use Rattle.std.specs.Prelude.{◌≡◌, ◌≤◌, length};
ghost use Rattle.server.specs.Registered.{registered};
ghost use Rattle.memory.specs.Leaving.{Leads};
ghost use Rattle.server.specs.Histories.{Aside, state_at, state_of, in_window_of, shown, made_through};
ghost use Rattle.server.specs.Kept.{GoesOn};
ghost use Rattle.sheet.specs.Runs.{ended_by, over_at, records, has_version, without_version, sheet_run};
ghost use Rattle.sheet.specs.Laws.{IsHistory};
ghost use Rattle.sheet.specs.Sheets.{RunBySheet};

use crate::record::test_record;
use frame::{Cause, Fault};
use memory::{ReadableMemory, WritableMemory};
use server::{Registration, Server, Settings, Window, take_frame};
use wire::Code;

// Why a run ended.
#[derive(Clone, Copy, PartialEq, Eq, Debug)]
pub enum Reason {
    // no record was left
    Finished,
    // as many frames were taken as the caller allowed
    Cancelled,
    // a fault of the sheet, of a frame, or of a reply
    Stopped(Fault),
}

// How a run ended: the count of replies without an error, and the place of the next record that was not taken.
#[derive(Clone, Copy, PartialEq, Eq, Debug)]
pub struct RunEnd {
    pub reason: Reason,
    pub count: usize,
    pub next: usize,
}

// Whether a sheet begins with its version byte.
fn has_version(sheet: &[u8]) -> bool
    ensures { result ≡ has_version sheet.now }
{
    matches!(sheet, [1, ..])
}

// The end of a run of a sheet that has no version byte.
fn no_version() -> RunEnd
    ensures { result ≡ without_version }
{
    RunEnd {
        reason: Reason::Stopped(Cause::NoVersion.at(0)),
        count: 0,
        next: 0,
    }
}

// Why a run is over before the record at `at`, with so many frames still allowed: no record is left, or no frame is allowed.
fn over_at(sheet: &[u8], at: usize, allowed: usize) -> Option<Reason>
    ensures { result ≡ over_at sheet.now at allowed }
{
    if at == sheet.len() {
        Some(Reason::Finished)
    } else if allowed == 0 {
        Some(Reason::Cancelled)
    } else {
        None
    }
}

// Carries out the records of a sheet while the write flag is on.
// Code, sheet, cancel number and reply space go through three functions and are read in one: a struct would be made and read once.
fn run_records<M: WritableMemory>(
    code: Code,
    sheet: &[u8],
    cancel: usize,
    reply: &mut [u8],
    memory: &mut M,
    settings: &Settings,
    registration: &mut Registration,
) -> RunEnd
    requires { 1 ≤ length sheet.now }
    ensures ends { (w : Aside) →
        let s = state_at M.means registered memory.old settings.now registration.old w in
        let s' = state_at M.means registered memory.new settings.now registration.new w in
        ended_by result.reason result.count result.next reply.new s' ≡ (records code sheet.now cancel 1 0 reply.old s).end }
    ensures led { (w : Aside) →
        let s = state_at M.means registered memory.old settings.now registration.old w in
        Leads M.leaves memory.old (made_through s (records code sheet.now cancel 1 0 reply.old s).calls) memory.new }
{
    // A loop that breaks with its reason: each turn writes memory, reply and registration, the place goes on by the length that a record says,
    // and a record counts only once its reply tells no error.
    let mut at = 1;
    let mut count = 0;
    let reason = loop {
        if let Some(reason) = over_at(sheet, at, cancel - count) {
            break reason;
        }
        let size = match test_record(code, sheet, at, reply.len()) {
            Ok(size) => size,
            Err(fault) => break Reason::Stopped(fault),
        };
        let front = at + 2;
        at = front + size;
        let frame = &sheet[front..at];
        let answer = take_frame(code, frame, reply, memory, settings, registration);
        if let Some(fault) = answer.fault {
            break Reason::Stopped(fault);
        }
        count += 1;
    };
    RunEnd {
        reason,
        count,
        next: at,
    }
}

// Carries out the records of a sheet in a calibration window, which is over however the run ends.
fn run_in_window<M: WritableMemory>(
    code: Code,
    sheet: &[u8],
    cancel: usize,
    reply: &mut [u8],
    memory: &mut M,
    settings: &mut Settings,
    registration: &mut Registration,
) -> RunEnd
    requires { 1 ≤ length sheet.now }
    ensures ends { let s = in_window_of M.means memory.old settings.old registration.old in
        let s' = in_window_of M.means memory.new settings.old registration.new in
        ended_by result.reason result.count result.next reply.new s' ≡ (records code sheet.now cancel 1 0 reply.old s).end }
    ensures led { let s = in_window_of M.means memory.old settings.old registration.old in
        Leads M.leaves memory.old (made_through s (records code sheet.now cancel 1 0 reply.old s).calls) memory.new }
    ensures flag { settings.new.write_flag ≡ settings.old.write_flag }
{
    let window = Window::open(settings);
    let settings = window.settings();
    run_records(code, sheet, cancel, reply, memory, settings, registration)
}

// Runs a sheet: a version byte, and records one behind the other, each with one frame. At most `cancel` frames are taken, and the first error ends the run:
// 7, with no version byte, before anything is changed; 8, with a bad record, or the fault of a frame, behind the frames before. The answer tells the reason,
// the count of accepted frames and the place of the next untaken record. The last reply stands at the front of `reply`, and the write flag is what it was.
pub fn run_sheet<M: WritableMemory>(
    server: &mut Server<M>,
    code: Code,
    sheet: &[u8],
    cancel: usize,
    reply: &mut [u8],
) -> RunEnd
    ensures ends { result ≡ (sheet_run code sheet.now cancel reply.old (state_of M.means server.old)).end.result }
    ensures space { reply.new ≡ (sheet_run code sheet.now cancel reply.old (state_of M.means server.old)).end.space }
    ensures flag { server.new.settings.write_flag ≡ server.old.settings.write_flag }
    ensures led { let s = state_of M.means server.old in
        let calls = (sheet_run code sheet.now cancel reply.old s).calls in
        Leads M.leaves server.old.memory (made_through s calls) server.new.memory }
    ensures history { let s = state_of M.means server.old in
        let calls = (sheet_run code sheet.now cancel reply.old s).calls in
        IsHistory s reply.old calls result reply.new (state_of M.means server.new) }
    ensures sheet { let s = state_of M.means server.old in
        let calls = (sheet_run code sheet.now cancel reply.old s).calls in
        RunBySheet code sheet.now cancel (length reply.old) calls (shown s calls) result }
    ensures carries { let s = state_of M.means server.old in
        let calls = (sheet_run code sheet.now cancel reply.old s).calls in
        GoesOn s calls (shown s calls) (state_of M.means server.new) }
{
    if !has_version(sheet) {
        return no_version();
    }
    run_in_window(
        code,
        sheet,
        cancel,
        reply,
        &mut server.memory,
        &mut server.settings,
        &mut server.registration,
    )
}
