// The binary code: the bytes of a number themselves, low byte first.
ghost use Rattle.std.specs.Prelude.{◌≡◌, ◌+◌, ◌*◌, ◌/◌, ◌%◌, ◌^◌, ◌<◌, ◌≤◌, length, slice_set, refl};
ghost use Rattle.std.proofs.lemmas.List.Edits.{sets};
ghost use Rattle.wire.specs.declared.code.Code.{Code};
ghost use Rattle.device.specs.Devices.{code_of};
ghost use Rattle.wire.specs.Numbers.{low_first, low_bytes};

use crate::code::{FieldFault, WireCode};
use crate::digits::{higher_digits, low_digit, with_digit};
use device::{Device, by_code};

pub struct Binary;

// The number in the first `size` bytes.
fn read_bytes(bytes: &[u8], size: usize) -> u32
    requires { (size ≤ 4) × (size ≤ length bytes.now) }
    ensures value { result ≡ low_first size bytes.now }
    ensures below { result < 256 ^ size }
{
    let mut value: u32 = 0;
    for byte in bytes[..size].iter().rev() {
        value = with_digit(256, value, *byte);
    }
    value
}

// Writes the number's `size` lowest bytes from `at` on.
fn write_bytes(out: &mut [u8], at: usize, size: usize, value: u32)
    requires { at + size ≤ length out.old }
    ensures { out.new ≡ sets out.old at (low_bytes size value) }
{
    let mut rest = value;
    for byte in &mut out[at..at + size] {
        *byte = low_digit(256, rest);
        rest = higher_digits(256, rest);
    }
}

// Writes the code of a device behind the three bytes of its number.
fn write_code(out: &mut [u8], at: usize, device: Device)
    requires { at + 4 ≤ length out.old }
    ensures { out.new ≡ slice_set out.old (at + 3) (code_of device) }
{
    out[at + 3] = device.code();
}

impl WireCode for Binary {
    const WIRE_BYTES: usize = 1;

    ghost WIRE_BYTES = { 1 };

    ghost which = { Code.Binary };

    ghost each = { refl };

    fn read_value(bytes: &[u8], size: usize) -> Result<u32, FieldFault> {
        Ok(read_bytes(bytes, size))
    }

    fn write_value(out: &mut [u8], at: usize, size: usize, value: u32) {
        write_bytes(out, at, size, value);
    }

    fn read_name(bytes: &[u8]) -> Result<Device, FieldFault> {
        by_code(bytes[3]).ok_or(FieldFault::Unknown)
    }

    fn read_device_number(bytes: &[u8], _device: Device) -> Result<u32, FieldFault> {
        Ok(read_bytes(bytes, 3))
    }

    fn write_device_field(out: &mut [u8], at: usize, device: Device, number: u32) {
        write_bytes(out, at, 3, number);
        write_code(out, at, device);
    }

    fn bits_size(points: usize) -> usize {
        (points + 1) / 2
    }

    fn write_two_bits(out: &mut [u8], at: usize, first: u16, second: u16) -> usize {
        out[at] = (16 * first + second) as u8;
        1
    }

    fn write_last_bit(out: &mut [u8], at: usize, value: u16) -> usize {
        out[at] = (16 * value) as u8;
        1
    }

    fn read_half(bytes: &[u8], index: usize) -> Result<u8, FieldFault> {
        let byte = bytes[index / 2];
        if index % 2 == 0 {
            Ok(byte / 16)
        } else {
            Ok(byte % 16)
        }
    }

    fn is_filled(bytes: &[u8], points: usize) -> bool {
        points % 2 == 0 || bytes[points / 2] % 16 == 0
    }
}
