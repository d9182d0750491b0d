// What a wire code is: how numbers and device fields are sent and read.
ghost use Rattle.std.specs.Prelude.{◌≡◌, ℕ, ◌+◌, ◌*◌, ◌^◌, ◌<◌, ◌≤◌, [], ◌∷◌, length, drop, IfOk, Ok};
ghost use Rattle.std.proofs.lemmas.List.Edits.{sets};
ghost use Rattle.wire.specs.declared.code.Code.{Code};
ghost use Rattle.wire.specs.Numbers.{per_byte, value_sent, number_in, encode};
ghost use Rattle.wire.specs.Points.{bits_bytes, bits_size, half_in, filled};
ghost use Rattle.wire.specs.Fields.{device_named, device_number, device_in, encode_device, number_limit};

use device::Device;

#[derive(Clone, Copy, PartialEq, Eq, Debug)]
pub enum Code {
    Binary,
    Ascii,
}

// Why a field cannot be read.
#[derive(Clone, Copy, PartialEq, Eq, Debug)]
pub enum FieldFault {
    // Not all of the field is there.
    Missing,
    // No device has this code or symbol.
    Unknown,
    // A bad digit, by its place in the field.
    Digit(u8),
}

// Every reader reads what its bytes begin with, and says how many of them the field took.
// A writer takes all of `out` and a place in it, since a reply is written in parts and the rest of it is promised to stay.
// Numbers and devices are read and written alike, as their promises are; one function for both would take two readers and two sizes.
pub trait WireCode {
    // Wire bytes for each byte of a number.
    const WIRE_BYTES: usize;

    ghost WIRE_BYTES: { ℕ };

    ghost which: { Code };

    ghost each: { WIRE_BYTES ≡ per_byte which };

    // The size of a field of `bytes` bytes, in wire bytes.
    fn field_size(bytes: usize) -> usize
        requires { bytes < 65536 }
        ensures { result ≡ bytes * per_byte which }
    {
        bytes * Self::WIRE_BYTES
    }

    // The value of a number of `size` bytes that is all there.
    fn read_value(bytes: &[u8], size: usize) -> Result<u32, FieldFault>
        requires { (size ≤ 4) × (size * per_byte which ≤ length bytes.now) }
        ensures value { result ≡ value_sent which size bytes.now }
        ensures below { IfOk result (λ v. v < 256 ^ size) };

    // A number of `size` bytes.
    fn read_number(bytes: &[u8], size: usize) -> Result<(u32, usize), FieldFault>
        requires { size ≤ 4 }
        ensures value { result ≡ number_in which size bytes.now }
        ensures within { IfOk result (λ p. (p.1 ≤ length bytes.now) × (p.0 < 256 ^ size) × (p.1 ≡ size * per_byte which)) }
    {
        let used = Self::field_size(size);
        if bytes.len() < used {
            return Err(FieldFault::Missing);
        }
        let value = Self::read_value(bytes, size)?;
        Ok((value, used))
    }

    // Writes the value of a number of `size` bytes from `at` on.
    fn write_value(out: &mut [u8], at: usize, size: usize, value: u32)
        requires { (size ≤ 4) × (at + size * per_byte which ≤ length out.old) }
        ensures { out.new ≡ sets out.old at (encode which size value) };

    // Writes a number of `size` bytes from `at` on; it then reads as itself.
    fn write_number(out: &mut [u8], at: usize, size: usize, value: u32) -> usize
        requires { (size ≤ 4) × (at + size * per_byte which ≤ length out.old) }
        ensures used { result ≡ size * per_byte which }
        ensures written { out.new ≡ sets out.old at (encode which size value) }
        ensures back { value < 256 ^ size → number_in which size (drop at out.new) ≡ Ok (value, size * per_byte which) }
    {
        Self::write_value(out, at, size, value);
        Self::field_size(size)
    }

    // The device of a field that is all there, by its code or its symbol.
    fn read_name(bytes: &[u8]) -> Result<Device, FieldFault>
        requires { 4 * per_byte which ≤ length bytes.now }
        ensures { result ≡ device_named which bytes.now };

    // The number of a device's field that is all there.
    fn read_device_number(bytes: &[u8], device: Device) -> Result<u32, FieldFault>
        requires { 4 * per_byte which ≤ length bytes.now }
        ensures value { result ≡ device_number which device bytes.now }
        ensures below { IfOk result (λ v. v < 2 ^ 24) };

    // A device and its number. All of the field is looked for first, then the device, then the digits.
    fn read_device(bytes: &[u8]) -> Result<(Device, u32, usize), FieldFault>
        ensures value { result ≡ device_in which bytes.now }
        ensures within { IfOk result (λ d. (d.2 ≤ length bytes.now) × (d.1 < 2 ^ 24) × (d.2 ≡ 4 * per_byte which)) }
    {
        let used = Self::field_size(4);
        if bytes.len() < used {
            return Err(FieldFault::Missing);
        }
        let device = Self::read_name(bytes)?;
        let number = Self::read_device_number(bytes, device)?;
        Ok((device, number, used))
    }

    // Writes the field of a device and its number from `at` on.
    fn write_device_field(out: &mut [u8], at: usize, device: Device, number: u32)
        requires { at + 4 * per_byte which ≤ length out.old }
        ensures { out.new ≡ sets out.old at (encode_device which device number) };

    // Writes a device and its number from `at` on; they then read as themselves.
    fn write_device(out: &mut [u8], at: usize, device: Device, number: u32) -> usize
        requires { at + 4 * per_byte which ≤ length out.old }
        ensures used { result ≡ 4 * per_byte which }
        ensures written { out.new ≡ sets out.old at (encode_device which device number) }
        ensures back { number < number_limit which device → device_in which (drop at out.new) ≡ Ok (device, number, 4 * per_byte which) }
    {
        Self::write_device_field(out, at, device, number);
        Self::field_size(4)
    }

    // How many wire bytes so many points in bits take.
    fn bits_size(points: usize) -> usize
        requires { points < 65536 }
        ensures { result ≡ bits_size which points };

    // Writes two points in bits from `at` on.
    fn write_two_bits(out: &mut [u8], at: usize, first: u16, second: u16) -> usize
        requires { (first < 2) × ((second < 2) × (at + bits_size which 2 ≤ length out.old)) }
        ensures used { result ≡ bits_size which 2 }
        ensures written { out.new ≡ sets out.old at (bits_bytes which (first ∷ second ∷ [])) };

    // Writes the one point in bits that an odd number of them leaves.
    fn write_last_bit(out: &mut [u8], at: usize, value: u16) -> usize
        requires { (value < 2) × (at + bits_size which 1 ≤ length out.old) }
        ensures used { result ≡ bits_size which 1 }
        ensures written { out.new ≡ sets out.old at (bits_bytes which (value ∷ [])) };

    // The digit of the point with this index among points in bits.
    fn read_half(bytes: &[u8], index: usize) -> Result<u8, FieldFault>
        requires { bits_size which (index + 1) ≤ length bytes.now }
        ensures { result ≡ half_in which bytes.now index };

    // Whether an odd end of so many points in bits is filled by 0.
    fn is_filled(bytes: &[u8], points: usize) -> bool
        requires { bits_size which points ≤ length bytes.now }
        ensures { result ≡ filled which bytes.now points };
}
