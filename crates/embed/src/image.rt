// The exports over a byte image.
ghost use Rattle.std.specs.Prelude.{◌≡◌, length, true, IfOk};
ghost use Rattle.memory.specs.Making.{is_fit};
ghost use Rattle.memory.specs.declared.layout.Form.TheVariants.{Image};
ghost use Rattle.embed.specs.Arguments.{code_named, extents_of, fitting};
ghost use Rattle.embed.specs.Registered.{is_listing};
ghost use Rattle.embed.specs.Taking.{Taken, Takes, served_in};
ghost use Rattle.embed.specs.Results.{size_in, read_in, set_status, set_units};

use crate::arguments::{code_in, device_in, extents_in};
use crate::points::read;
use crate::registered::BenchRegistration;
use crate::results::{BAD_REGISTRATION, BenchAnswer, BenchSize, BenchValue, size_of, status_of};
use crate::serving::take;
use memory::{ByteImage, bytes_needed, image_fits, set_image};
use wire::Code;

// How many bytes a byte image of these extents takes; refused by 9 where an extent is too large.
#[unsafe(no_mangle)]
pub extern "C" fn bench_image_needed(extents: &[u32]) -> BenchSize
    ensures { result ≡ size_in Image (extents_of extents.now) }
{
    match extents_in(extents) {
        Ok(extents) => size_of(bytes_needed(&extents)),
        Err(status) => BenchSize { units: 0, status },
    }
}

// The extents, where a byte image of them fits into so many bytes.
#[inline(always)]
fn fitting(bytes: usize, extents: &[u32]) -> Result<[u32; 12], u32>
    ensures value { result ≡ fitting Image bytes extents.now }
    ensures fits { IfOk result (λ es. is_fit Image es bytes ≡ true) }
{
    let extents = extents_in(extents)?;
    match image_fits(bytes, &extents) {
        Ok(()) => Ok(extents),
        Err(refusal) => Err(u32::from(refusal.number())),
    }
}

// What a point holds: the device by its place in the table, and the number. Refused, and 0: other than twelve extents (102), extents that do not fit (9), a
// place above 11 (103), a point outside (11).
#[unsafe(no_mangle)]
pub extern "C" fn bench_image_read(
    bytes: &mut [u8],
    extents: &[u32],
    device: u32,
    number: u32,
) -> BenchValue
    ensures value { result ≡ read_in Image bytes.old (fitting Image (length bytes.old) extents.now) device number }
    ensures kept { bytes.new ≡ bytes.old }
{
    match fitting(bytes.len(), extents) {
        Ok(extents) => read(&ByteImage::new(bytes, extents), device, number),
        Err(status) => BenchValue { status, value: 0 },
    }
}

// Gives a point a value, whatever the write flag is. Refused, and nothing is changed: as in reading, and a value too wide for the kind of the point (13).
#[unsafe(no_mangle)]
pub extern "C" fn bench_image_set(
    bytes: &mut [u8],
    extents: &[u32],
    device: u32,
    number: u32,
    value: u16,
) -> u32
    ensures status { result ≡ set_status Image bytes.old (fitting Image (length bytes.old) extents.now) device number value }
    ensures bytes { bytes.new ≡ set_units Image bytes.old (fitting Image (length bytes.old) extents.now) device number value }
{
    match fitting(bytes.len(), extents) {
        Ok(extents) => match device_in(device) {
            Ok(device) => status_of(set_image(bytes, extents, device, number, value)),
            Err(status) => status,
        },
        Err(status) => status,
    }
}

// Takes a frame over them, with a registration that can be listed.
fn take_over(
    image: &mut ByteImage<'_>,
    code: Code,
    frame: &[u8],
    reply: &mut [u8],
    write_flag: bool,
    registration: &mut BenchRegistration,
) -> BenchAnswer
    requires { is_listing registration.old ≡ true }
    ensures name { image.new.units.ghost_name ≡ image.old.units.ghost_name }
    ensures taken { let s = served_in Image code frame.now write_flag image.old.extents reply.old image.old.units.now registration.old in
        Taken Image image.old.extents frame.now s result reply.old image.old.units.now reply.new image.new.units.now registration.old registration.new }
{
    take(image, code, frame, reply, write_flag, registration)
}

// Takes the frame at the front of `frame`, in code 0 (binary) or 1 (ASCII), and writes one reply at the front of `reply`. The answer has the bytes taken, the
// reply's length and the number and place of a fault, or 0. Refused, with a status, 0 in all else, and nothing changed: a code above 1 (101), other than
// twelve extents (102), extents that do not fit (9), a registration that cannot be listed (104).
#[unsafe(no_mangle)]
pub extern "C" fn bench_image_take_frame(
    code: u32,
    frame: &[u8],
    reply: &mut [u8],
    bytes: &mut [u8],
    extents: &[u32],
    write_flag: bool,
    registration: &mut BenchRegistration,
) -> BenchAnswer
    ensures { Takes Image (code_named code) (fitting Image (length bytes.old) extents.now) frame.now write_flag result reply.old bytes.old registration.old reply.new bytes.new registration.new }
{
    let code = match code_in(code) {
        Ok(code) => code,
        Err(status) => return BenchAnswer::refused(status),
    };
    let extents = match fitting(bytes.len(), extents) {
        Ok(extents) => extents,
        Err(status) => return BenchAnswer::refused(status),
    };
    if !registration.is_listing() {
        return BenchAnswer::refused(BAD_REGISTRATION);
    }
    take_over(
        &mut ByteImage::new(bytes, extents),
        code,
        frame,
        reply,
        write_flag,
        registration,
    )
}
