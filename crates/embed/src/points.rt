// Asking for a point, over any memory.
ghost use Rattle.std.specs.Prelude.{◌≡◌};
ghost use Rattle.embed.specs.Arguments.{device_named_by};
ghost use Rattle.embed.specs.Results.{value_told, point_of};

use crate::arguments::device_in;
use crate::results::{BenchValue, DONE, OUTSIDE};
use memory::ReadableMemory;

fn value_told(told: Option<u16>) -> BenchValue
    ensures { result ≡ value_told told }
{
    match told {
        Some(value) => BenchValue {
            status: DONE,
            value: u32::from(value),
        },
        None => BenchValue {
            status: OUTSIDE,
            value: 0,
        },
    }
}

// What the point holds; refused where no device has the place, and outside.
pub(crate) fn read<M: ReadableMemory>(memory: &M, place: u32, number: u32) -> BenchValue
    ensures { result ≡ point_of (M.ReadableMemory.means memory.now) (device_named_by place) number }
{
    match device_in(place) {
        Ok(device) => value_told(memory.read(device, number)),
        Err(status) => BenchValue { status, value: 0 },
    }
}
