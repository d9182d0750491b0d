// What the tests of frames share: a server over packed tables, and the extents of a small memory.
use device::Device;
use frame::{Cause, Fault};
use memory::{PackedTables, WritableMemory};
use server::{Answer, Registration, Settings, take_frame};
use wire::Code;

// M has 64 points, D and W 32, of which D2 is 1234H, and M0 and M3 are on.
pub fn serve(code: Code, frame: &[u8], reply: &mut [u8]) -> Answer {
    let mut words = [0u16; 70];
    let mut extents = [0u32; 12];
    extents[Device::M.place()] = 64;
    extents[Device::D.place()] = 32;
    extents[Device::W.place()] = 32;
    let mut tables = PackedTables::new(&mut words, extents);
    let _ = tables.write(Device::D, 2, 0x1234);
    let _ = tables.write(Device::W, 31, 7);
    let _ = tables.write(Device::M, 0, 1);
    let _ = tables.write(Device::M, 3, 1);
    let settings = Settings { write_flag: false };
    let mut registration = Registration::new();
    take_frame(
        code,
        frame,
        reply,
        &mut tables,
        &settings,
        &mut registration,
    )
}

pub fn fault(cause: Cause, place: usize) -> Option<Fault> {
    Some(cause.at(place))
}

// The fault that a frame meets, with reply space enough.
pub fn met(code: Code, frame: &[u8]) -> Option<Fault> {
    let mut reply = [0xEEu8; 4096];
    serve(code, frame, &mut reply).fault
}

// 16 points of D and 16 of M.
pub fn small_extents() -> [u32; 12] {
    let mut extents = [0u32; 12];
    extents[Device::M.place()] = 16;
    extents[Device::D.place()] = 16;
    extents
}
