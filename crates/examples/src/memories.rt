// What the memories keep, and what frames in either code write to them.
use crate::serving::{fault, small_extents};
use device::Device;
use frame::Cause;
use memory::{
    ByteImage, Locked, Locks, PackedTables, Range, ReadableMemory, Refusal, WritableMemory,
};
use server::{Registration, Settings, take_frame};
use std::process::Abort;
use wire::Code;

#[test]
fn packed_tables_and_what_they_keep(rt: HostRuntime) {
    let mut words = [0xFFFFu16; 4];
    let mut extents = [0u32; 12];
    extents[Device::M.place()] = 20;
    extents[Device::D.place()] = 1;
    {
        let mut tables = PackedTables::new(&mut words, extents);
        assert_eq!(rt; tables.write(Device::M, 17, 0), Ok(()));
        assert_eq!(rt; tables.write(Device::D, 0, 5), Ok(()));
        assert_eq!(rt; tables.write(Device::D, 1, 5), Err(Refusal::Outside));
        assert_eq!(rt; tables.write(Device::M, 19, 2), Err(Refusal::TooWide));
        assert_eq!(rt; tables.read(Device::M, 17), Some(0));
        assert_eq!(rt; tables.read(Device::M, 20), None);
    }
    assert_eq!(rt; words, [0xFFFF, 0xFFFD, 5, 0xFFFF]);
    extents[Device::D.place()] = 65537;
    assert_eq!(rt; memory::fits(100000, &extents), Err(Refusal::NoRoom));
}

#[test]
fn writes_in_one_code_read_in_the_other(rt: HostRuntime) {
    let mut bytes = [0x80u8; 50];
    let mut image = ByteImage::new(&mut bytes, small_extents());
    let mut reply = [0xEEu8; 4096];
    let on = Settings { write_flag: true };
    let mut none = Registration::new();
    let words = take_frame(
        Code::Ascii,
        b"500000FF03FF000020001014010000D*000002000212345678",
        &mut reply,
        &mut image,
        &on,
        &mut none,
    );
    assert_eq!(rt; words.fault, None);
    assert!(rt; words.length == 22);
    let bits = take_frame(
        Code::Binary,
        b"\x50\x00\x00\xFF\xFF\x03\x00\x0E\x00\x10\x00\x01\x14\x01\x00\x00\x00\x00\x90\x03\x00\x10\x10",
        &mut reply,
        &mut image,
        &on,
        &mut none,
    );
    assert_eq!(rt; bits.fault, None);
    let back = take_frame(
        Code::Binary,
        b"\x50\x00\x00\xFF\xFF\x03\x00\x0C\x00\x10\x00\x01\x04\x00\x00\x02\x00\x00\xA8\x02\x00",
        &mut reply,
        &mut image,
        &on,
        &mut none,
    );
    assert!(rt; back.length == 15 && reply[11..15] == b"\x34\x12\x78\x56"[..]);
    let shown = take_frame(
        Code::Ascii,
        b"500000FF03FF000018001004010001M*0000000004",
        &mut reply,
        &mut image,
        &on,
        &mut none,
    );
    assert!(rt; shown.length == 26 && reply[22..26] == b"1011"[..]);
    let off = Settings { write_flag: false };
    let refused = take_frame(
        Code::Ascii,
        b"500000FF03FF000020001014010000D*000002000200000000",
        &mut reply,
        &mut image,
        &off,
        &mut none,
    );
    assert_eq!(rt; refused.fault, fault(Cause::WriteOff, 22));
}

// A lock over any memory: D1 is closed.
fn lock_second<M: WritableMemory>(rt: &impl Abort, memory: &mut M) {
    let mut locks = Locks::new();
    assert_eq!(rt;
        locks.add(Range {
            device: Device::D,
            first: 1,
            last: 1,
        }),
        Ok(())
    );
    assert_eq!(rt;
        locks.add(Range {
            device: Device::D,
            first: 9,
            last: 3,
        }),
        Err(Refusal::NoLock)
    );
    let mut locked = Locked::new(memory, locks);
    let mut reply = [0xEEu8; 4096];
    let on = Settings { write_flag: true };
    let mut none = Registration::new();
    let refused = take_frame(
        Code::Ascii,
        b"500000FF03FF0000280010140200000200D*0000000001D*0000010002",
        &mut reply,
        &mut locked,
        &on,
        &mut none,
    );
    assert_eq!(rt; refused.fault, fault(Cause::ClosedPoint, 46));
    assert_eq!(rt; locked.read(Device::D, 0), Some(0));
    assert_eq!(rt; locked.write(Device::D, 1, 5), Err(Refusal::Closed));
}

#[test]
fn locked_points_stay(rt: HostRuntime) {
    let mut words = [0u16; 17];
    let mut tables = PackedTables::new(&mut words, small_extents());
    lock_second(&rt, &mut tables);
}
