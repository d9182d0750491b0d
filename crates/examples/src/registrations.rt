// A registration, and the monitor that shows it.
use crate::serving::{fault, small_extents};
use device::Device;
use frame::Cause;
use memory::{PackedTables, WritableMemory};
use server::{Registration, Settings, take_frame};
use wire::Code;

#[test]
fn registration_and_monitor(rt: HostRuntime) {
    let mut words = [0u16; 17];
    let mut tables = PackedTables::new(&mut words, small_extents());
    assert_eq!(rt; tables.write(Device::D, 3, 0x0102), Ok(()));
    let mut reply = [0xEEu8; 4096];
    let off = Settings { write_flag: false };
    let mut registration = Registration::new();
    let monitor = b"\x50\x00\x00\xFF\xFF\x03\x00\x06\x00\x10\x00\x02\x08\x00\x00";
    let early = take_frame(
        Code::Binary,
        monitor,
        &mut reply,
        &mut tables,
        &off,
        &mut registration,
    );
    assert_eq!(rt; early.fault, fault(Cause::NotRegistered, 11));
    let asked = take_frame(
        Code::Ascii,
        b"500000FF03FF0000180010080100000100D*000003",
        &mut reply,
        &mut tables,
        &off,
        &mut registration,
    );
    assert_eq!(rt; asked.fault, None);
    assert_eq!(rt; registration.count(), Some(1));
    let outside = take_frame(
        Code::Ascii,
        b"500000FF03FF0000180010080100000100D*000016",
        &mut reply,
        &mut tables,
        &off,
        &mut registration,
    );
    assert_eq!(rt; outside.fault, fault(Cause::OutsideExtent, 34));
    let shown = take_frame(
        Code::Binary,
        monitor,
        &mut reply,
        &mut tables,
        &off,
        &mut registration,
    );
    assert_eq!(rt; shown.fault, None);
    assert!(rt; shown.length == 13 && reply[11..13] == b"\x02\x01"[..]);
}
