// What stands in the bytes that a request holds, entry by entry. Each reader has an answer for any bytes, so it looks for its place itself.
ghost use Rattle.std.specs.Prelude.{◌≡◌, ◌+◌, ◌^◌, ◌<◌, ◌≤◌, length, drop, IfOk};
ghost use Rattle.wire.specs.Numbers.{number_in};
ghost use Rattle.request.specs.Fields.{bit_in};
ghost use Rattle.request.specs.Entries.{access_in, setting_in};

use crate::fields::Place;
use device::Device;
use wire::{FieldFault, WireCode};

// The access at `at`, and the wire bytes it used.
pub fn access_at<C: WireCode>(list: &[u8], at: usize) -> Result<((Device, u32), usize), FieldFault>
    ensures value { result ≡ access_in C.WireCode.which (drop at list.now) }
    ensures within { IfOk result (λ a. (at + a.1 ≤ length list.now) × (a.0.1 < 2 ^ 24)) }
{
    if at > list.len() {
        return Err(FieldFault::Missing);
    }
    let (device, number, used) = wire::device_at::<C>(list, at)?;
    Ok(((device, number), used))
}

// The setting at `at`, with a value of `size` bytes, and the wire bytes it used.
pub fn setting_at<C: WireCode>(
    list: &[u8],
    at: usize,
    size: usize,
) -> Result<(((Device, u32), u32), usize), FieldFault>
    requires { size ≤ 4 }
    ensures value { result ≡ setting_in C.WireCode.which size (drop at list.now) }
    ensures within { IfOk result (λ a. (at + a.1 ≤ length list.now) × (a.0.0.1 < 2 ^ 24) × (a.0.1 < 256 ^ size)) }
{
    if at > list.len() {
        return Err(FieldFault::Missing);
    }
    let field = Place { frame: list, at }.rest();
    let (device, number, used) = wire::device_at::<C>(list, at)?;
    let (value, more) = wire::number_at::<C>(field, used, size)?;
    Ok((((device, number), value), used + more))
}

// The value of two bytes at `at`, and the wire bytes it used.
pub fn word_at<C: WireCode>(bytes: &[u8], at: usize) -> Result<(u16, usize), FieldFault>
    ensures value { result ≡ number_in C.WireCode.which 2 (drop at bytes.now) }
    ensures within { IfOk result (λ a. at + a.1 ≤ length bytes.now) }
{
    if at > bytes.len() {
        return Err(FieldFault::Missing);
    }
    let (value, used) = wire::number_at::<C>(bytes, at, 2)?;
    Ok((value as u16, used))
}

// The value of the point with this index among points in bits, and 0 where it cannot be read.
pub fn bit_at<C: WireCode>(bytes: &[u8], index: usize) -> u16
    requires { index < 65535 }
    ensures value { result ≡ bit_in C.WireCode.which bytes.now index }
{
    if bytes.len() < C::bits_size(index + 1) {
        return 0;
    }
    C::read_half(bytes, index).map_or(0, u16::from)
}
