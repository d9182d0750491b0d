// The exports over packed tables.
ghost use Rattle.std.specs.Prelude.{◌≡◌, length, true, IfOk};
ghost use Rattle.memory.specs.Making.{is_fit};
ghost use Rattle.memory.specs.declared.layout.Form.TheVariants.{Packed};
ghost use Rattle.embed.specs.Arguments.{code_named, extents_of, fitting};
ghost use Rattle.embed.specs.Registered.{is_listing};
ghost use Rattle.embed.specs.Taking.{Taken, Takes, served_in};
ghost use Rattle.embed.specs.Results.{size_in, read_in, set_status, set_units};

use crate::arguments::{code_in, device_in, extents_in};
use crate::points::read;
use crate::registered::BenchRegistration;
use crate::results::{BAD_REGISTRATION, BenchAnswer, BenchSize, BenchValue, size_of, status_of};
use crate::serving::take;
use memory::{PackedTables, fits, set_packed, words_needed};
use wire::Code;

// How many words packed tables of these extents take; refused by 9 where an extent is too large.
#[unsafe(no_mangle)]
pub extern "C" fn bench_packed_needed(extents: &[u32]) -> BenchSize
    ensures { result ≡ size_in Packed (extents_of extents.now) }
{
    match extents_in(extents) {
        Ok(extents) => size_of(words_needed(&extents)),
        Err(status) => BenchSize { units: 0, status },
    }
}

// The extents, where packed tables of them fit into so many words.
#[inline(always)]
fn fitting(words: usize, extents: &[u32]) -> Result<[u32; 12], u32>
    ensures value { result ≡ fitting Packed words extents.now }
    ensures fits { IfOk result (λ es. is_fit Packed es words ≡ true) }
{
    let extents = extents_in(extents)?;
    match fits(words, &extents) {
        Ok(()) => Ok(extents),
        Err(refusal) => Err(u32::from(refusal.number())),
    }
}

// What a point holds: the device by its place in the table, and the number. Refused, and 0: other than twelve extents (102), extents that do not fit (9), a
// place above 11 (103), a point outside (11).
#[unsafe(no_mangle)]
pub extern "C" fn bench_packed_read(
    words: &mut [u16],
    extents: &[u32],
    device: u32,
    number: u32,
) -> BenchValue
    ensures value { result ≡ read_in Packed words.old (fitting Packed (length words.old) extents.now) device number }
    ensures kept { words.new ≡ words.old }
{
    match fitting(words.len(), extents) {
        Ok(extents) => read(&PackedTables::new(words, extents), device, number),
        Err(status) => BenchValue { status, value: 0 },
    }
}

// Gives a point a value, whatever the write flag is. Refused, and nothing is changed: as in reading, and a value too wide for the kind of the point (13).
#[unsafe(no_mangle)]
pub extern "C" fn bench_packed_set(
    words: &mut [u16],
    extents: &[u32],
    device: u32,
    number: u32,
    value: u16,
) -> u32
    ensures status { result ≡ set_status Packed words.old (fitting Packed (length words.old) extents.now) device number value }
    ensures words { words.new ≡ set_units Packed words.old (fitting Packed (length words.old) extents.now) device number value }
{
    match fitting(words.len(), extents) {
        Ok(extents) => match device_in(device) {
            Ok(device) => status_of(set_packed(words, extents, device, number, value)),
            Err(status) => status,
        },
        Err(status) => status,
    }
}

// Takes a frame over them, with a registration that can be listed.
fn take_over(
    tables: &mut PackedTables<'_>,
    code: Code,
    frame: &[u8],
    reply: &mut [u8],
    write_flag: bool,
    registration: &mut BenchRegistration,
) -> BenchAnswer
    requires { is_listing registration.old ≡ true }
    ensures name { tables.new.units.ghost_name ≡ tables.old.units.ghost_name }
    ensures taken { let s = served_in Packed code frame.now write_flag tables.old.extents reply.old tables.old.units.now registration.old in
        Taken Packed tables.old.extents frame.now s result reply.old tables.old.units.now reply.new tables.new.units.now registration.old registration.new }
{
    take(tables, code, frame, reply, write_flag, registration)
}

// Takes the frame at the front of `frame`, in code 0 (binary) or 1 (ASCII), and writes one reply at the front of `reply`. The answer has the bytes taken, the
// reply's length and the number and place of a fault, or 0. Refused, with a status, 0 in all else, and nothing changed: a code above 1 (101), other than
// twelve extents (102), extents that do not fit (9), a registration that cannot be listed (104).
#[unsafe(no_mangle)]
pub extern "C" fn bench_packed_take_frame(
    code: u32,
    frame: &[u8],
    reply: &mut [u8],
    words: &mut [u16],
    extents: &[u32],
    write_flag: bool,
    registration: &mut BenchRegistration,
) -> BenchAnswer
    ensures { Takes Packed (code_named code) (fitting Packed (length words.old) extents.now) frame.now write_flag result reply.old words.old registration.old reply.new words.new registration.new }
{
    let code = match code_in(code) {
        Ok(code) => code,
        Err(status) => return BenchAnswer::refused(status),
    };
    let extents = match fitting(words.len(), extents) {
        Ok(extents) => extents,
        Err(status) => return BenchAnswer::refused(status),
    };
    if !registration.is_listing() {
        return BenchAnswer::refused(BAD_REGISTRATION);
    }
    take_over(
        &mut PackedTables::new(words, extents),
        code,
        frame,
        reply,
        write_flag,
        registration,
    )
}
