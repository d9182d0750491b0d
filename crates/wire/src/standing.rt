// Fields that stand at a place in a frame.
ghost use Rattle.std.specs.Prelude.{◌≡◌, ◌+◌, ◌*◌, ◌^◌, ◌<◌, ◌≤◌, length, drop, IfOk};
ghost use Rattle.wire.specs.Numbers.{per_byte, number_in};
ghost use Rattle.wire.specs.Fields.{device_in};

use crate::code::{FieldFault, WireCode};
use device::Device;

// The number that stands at `at`, and the wire bytes it used.
pub fn number_at<C: WireCode>(
    bytes: &[u8],
    at: usize,
    size: usize,
) -> Result<(u32, usize), FieldFault>
    requires { (size ≤ 4) × (at ≤ length bytes.now) }
    ensures value { result ≡ number_in C.WireCode.which size (drop at bytes.now) }
    ensures within { IfOk result (λ p. (at + p.1 ≤ length bytes.now) × (p.0 < 256 ^ size) × (p.1 ≡ size * per_byte C.WireCode.which)) }
{
    C::read_number(&bytes[at..], size)
}

// The device field that stands at `at`: the device, the number, and the wire bytes it used.
// Like the number above but for the reader, which is one call: a parameter for it would be longer.
pub fn device_at<C: WireCode>(bytes: &[u8], at: usize) -> Result<(Device, u32, usize), FieldFault>
    requires { at ≤ length bytes.now }
    ensures value { result ≡ device_in C.WireCode.which (drop at bytes.now) }
    ensures within { IfOk result (λ d. (at + d.2 ≤ length bytes.now) × (d.1 < 2 ^ 24) × (d.2 ≡ 4 * per_byte C.WireCode.which)) }
{
    C::read_device(&bytes[at..])
}
