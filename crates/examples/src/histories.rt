// Lists of calls and runs of sheets, over both kinds of memory.
use device::Device;
use frame::Cause;
use history::{Call, Outcome, replay, replay_both};
use memory::{ByteImage, PackedTables, ReadableMemory, WritableMemory};
use server::Server;
use sheet::{Reason, run_sheet};
use std::alloc::Global;
use std::process::Abort;
use std::test::Fail;
use wire::Code;

// Sixteen registers D0 to D15 and nothing else.
fn sixteen_d() -> [u32; 12] {
    let mut extents = [0u32; 12];
    extents[Device::D.place()] = 16;
    extents
}

// The cause that a frame met, if it met one.
fn met(outcome: &Outcome) -> Option<Cause> {
    match outcome {
        Outcome::Taken { answer, .. } => answer.fault.map(|fault| fault.cause),
        _ => None,
    }
}

// The write flag that an opening or an ending shows.
fn flag_shown(outcome: &Outcome) -> Option<bool> {
    match outcome {
        Outcome::Window(flag) => *flag,
        _ => None,
    }
}

// The low byte of a word that a binary read of one word shows.
fn low_byte(outcome: &Outcome) -> u8 {
    match outcome {
        Outcome::Taken { space, .. } if space.len() > 11 => space[11],
        _ => 0,
    }
}

// D3 = 0095H in ASCII, and D3 read in binary.
const WRITE: [u8; 46] = *b"500000FF03FF00001C001014010000D*00000300010095";

const READ: [u8; 21] = [
    0x50, 0, 0, 0xFF, 0xFF, 3, 0, 12, 0, 0x10, 0, 1, 4, 0, 0, 3, 0, 0, 0xA8, 1, 0,
];

fn taking<'a>(code: Code, bytes: &'a [u8], space: &'a [u8]) -> Call<'a> {
    Call::Frame { code, bytes, space }
}

// Writes before, in and after a window, and reads back, over any memory with D0 to D15.
fn write_in_a_window<M: WritableMemory>(
    rt: &impl Abort,
    heap: Global,
    memory: &mut M,
) -> Result<(), Fail> {
    let mut server = Server::new(memory, false);
    let space = [0u8; 4096];
    let write = taking(Code::Ascii, &WRITE, &space);
    let read = taking(Code::Binary, &READ, &space);
    let calls = [
        write,
        Call::Open,
        Call::Open,
        write,
        Call::End,
        Call::End,
        write,
        read,
    ];
    let outcomes = replay(heap, &mut server, &calls).outcomes;
    let shown = outcomes.as_slice();
    if shown.len() < 8 {
        assert!(rt; false);
        return Ok(());
    }
    assert_eq!(rt; met(&shown[0]), Some(Cause::WriteOff));
    assert_eq!(rt; flag_shown(&shown[1]), Some(true));
    assert_eq!(rt; flag_shown(&shown[2]), None);
    assert_eq!(rt; met(&shown[3]), None);
    assert_eq!(rt; flag_shown(&shown[4]), Some(false));
    assert_eq!(rt; flag_shown(&shown[5]), None);
    assert_eq!(rt; met(&shown[6]), Some(Cause::WriteOff));
    assert_eq!(rt; low_byte(&shown[7]), 0x95);
    assert!(rt; !server.settings.write_flag);
    Ok(())
}

#[test]
fn a_window_in_a_list_of_calls(rt: HostRuntime) -> Result<(), Fail> {
    let mut words = [0u16; 16];
    let mut tables = PackedTables::new(&mut words, sixteen_d());
    write_in_a_window(&rt, rt.alloc(), &mut tables)
}

// The same two requests, a write of D3 and a read, in the other code.
const WRITE_BINARY: [u8; 23] = [
    0x50, 0, 0, 0xFF, 0xFF, 3, 0, 14, 0, 0x10, 0, 1, 0x14, 0, 0, 3, 0, 0, 0xA8, 1, 0, 0x95, 0,
];

const READ_ASCII: [u8; 42] = *b"500000FF03FF000018001004010000D*0000030001";

// Writes and reads D3 in ASCII on one server and in binary on another, over any two memories with D0 to D15.
fn pair<M: WritableMemory, N: WritableMemory>(
    rt: &impl Abort,
    heap: Global,
    one: &mut M,
    other: &mut N,
) {
    let mut left = Server::new(one, true);
    let mut right = Server::new(other, true);
    let space = [0u8; 4096];
    let ascii = [
        taking(Code::Ascii, &WRITE, &space),
        taking(Code::Ascii, &READ_ASCII, &space),
    ];
    let binary = [
        taking(Code::Binary, &WRITE_BINARY, &space),
        taking(Code::Binary, &READ, &space),
    ];
    let both = replay_both(heap, &mut left, &mut right, &ascii, &binary);
    assert_eq!(rt; both.left.outcomes.len(), 2);
    assert_eq!(rt; both.right.outcomes.len(), 2);
}

#[test]
fn two_servers_alike(rt: HostRuntime) {
    let mut words = [0u16; 16];
    let mut bytes = [0u8; 32];
    let mut tables = PackedTables::new(&mut words, sixteen_d());
    let mut image = ByteImage::new(&mut bytes, sixteen_d());
    pair(&rt, rt.alloc(), &mut tables, &mut image);
    assert_eq!(rt; tables.read(Device::D, 3), Some(0x95));
    assert_eq!(rt; image.read(Device::D, 3), Some(0x95));
}

// A sheet with two records, which write D3 = 0095H and read it.
const SHEET: [u8; 49] = [
    1, 0, 23, 0x50, 0, 0, 0xFF, 0xFF, 3, 0, 14, 0, 0x10, 0, 1, 0x14, 0, 0, 3, 0, 0, 0xA8, 1, 0,
    0x95, 0, 0, 21, 0x50, 0, 0, 0xFF, 0xFF, 3, 0, 12, 0, 0x10, 0, 1, 4, 0, 0, 3, 0, 0, 0xA8, 1, 0,
];

// Runs the sheet with room for one frame, and then whole, over any memory with D0 to D15.
fn run_twice<M: WritableMemory>(rt: &impl Abort, memory: &mut M) {
    let mut server = Server::new(memory, false);
    let mut reply = [0u8; 4096];
    let cancelled = run_sheet(&mut server, Code::Binary, &SHEET, 1, &mut reply);
    assert!(rt; matches!(cancelled.reason, Reason::Cancelled));
    assert_eq!(rt; cancelled.count, 1);
    assert_eq!(rt; cancelled.next, 26);
    let finished = run_sheet(&mut server, Code::Binary, &SHEET, 9, &mut reply);
    assert!(rt; matches!(finished.reason, Reason::Finished));
    assert_eq!(rt; finished.count, 2);
    assert_eq!(rt; finished.next, 49);
    assert_eq!(rt; reply[11], 0x95);
    assert!(rt; !server.settings.write_flag);
}

#[test]
fn a_sheet_is_cancelled_and_finished(rt: HostRuntime) {
    let mut words = [0u16; 16];
    let mut tables = PackedTables::new(&mut words, sixteen_d());
    run_twice(&rt, &mut tables);
}
