// A calibration window over the settings: writes are carried out inside it and in no other time.
use device::Device;
use frame::Cause;
use memory::{PackedTables, ReadableMemory};
use server::{Registration, Settings, Window, take_frame};
use wire::Code;

// The cause met by a frame that writes 1995H into D3.
fn write_met(tables: &mut PackedTables<'_>, settings: &Settings) -> Option<Cause> {
    let mut reply = [0u8; 4096];
    let mut none = Registration::new();
    let answer = take_frame(
        Code::Ascii,
        b"500000FF03FF00001C001014010000D*00000300011995",
        &mut reply,
        tables,
        settings,
        &mut none,
    );
    answer.fault.map(|fault| fault.cause)
}

// Writes once inside a window, which ends with the call.
fn write_in_window(tables: &mut PackedTables<'_>, settings: &mut Settings) -> Option<Cause> {
    let window = Window::open(settings);
    write_met(tables, window.settings())
}

#[test]
fn a_window_opens_and_ends(rt: HostRuntime) {
    let mut words = [0u16; 16];
    let mut extents = [0u32; 12];
    extents[Device::D.place()] = 16;
    let mut tables = PackedTables::new(&mut words, extents);
    let mut settings = Settings { write_flag: false };
    assert_eq!(rt; write_met(&mut tables, &settings), Some(Cause::WriteOff));
    assert_eq!(rt; tables.read(Device::D, 3), Some(0));
    assert_eq!(rt; write_in_window(&mut tables, &mut settings), None);
    assert_eq!(rt; tables.read(Device::D, 3), Some(0x1995));
    assert!(rt; !settings.write_flag);
    assert_eq!(rt; write_met(&mut tables, &settings), Some(Cause::WriteOff));
}
