// What a caller hands in as plain numbers, tested.
ghost use Rattle.std.specs.Prelude.{◌≡◌};
ghost use Rattle.embed.specs.Arguments.{code_named, device_named_by, extents_of};

use crate::results::{BAD_CODE, BAD_DEVICE, BAD_EXTENTS};
use device::{DEVICES, Device};
use wire::Code;

// The code that a number stands for: 0 is binary, 1 is ASCII.
pub(crate) fn code_in(code: u32) -> Result<Code, u32>
    ensures { result ≡ code_named code }
{
    match code {
        0 => Ok(Code::Binary),
        1 => Ok(Code::Ascii),
        _ => Err(BAD_CODE),
    }
}

// The device at a place of the table.
pub(crate) fn device_in(place: u32) -> Result<Device, u32>
    ensures { result ≡ device_named_by place }
{
    if place < 12 {
        Ok(DEVICES[place as usize].device)
    } else {
        Err(BAD_DEVICE)
    }
}

// An extent for each device.
#[inline(always)]
pub(crate) fn extents_in(extents: &[u32]) -> Result<[u32; 12], u32>
    ensures { result ≡ extents_of extents.now }
{
    // Taken one by one: a copy through memory would be read back in other sizes than it was written in.
    match extents {
        [m, sm, l, x, y, b, d, sd, zr, w, ts, tn] => Ok([
            *m, *sm, *l, *x, *y, *b, *d, *sd, *zr, *w, *ts, *tn,
        ]),
        _ => Err(BAD_EXTENTS),
    }
}
