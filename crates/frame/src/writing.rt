// Writes the frame of a reply.
ghost use Rattle.std.specs.Prelude.{◌≡◌, ◌+◌, ◌*◌, ◌<◌, ◌≤◌, [], ◌∷◌, length};
ghost use Rattle.std.proofs.lemmas.List.Edits.{sets};
ghost use Rattle.wire.specs.Numbers.{per_byte};
ghost use Rattle.wire.specs.Series.{series_size, series_bytes};
ghost use Rattle.frame.specs.Replies.{one, two, route_numbers, subheader_numbers, head_size, head_bytes, error_numbers};

use crate::header::{Form, Header, Route};
use wire::{Number, WireCode, write_series};

// A number of one byte.
fn byte(value: u8) -> Number
    ensures { result ≡ one value }
{
    Number {
        size: 1,
        value: u32::from(value),
    }
}

// A number of two bytes.
// Two names say in each list of fields which size a field has; a parameter would be a number there.
fn word(value: u16) -> Number
    ensures { result ≡ two value }
{
    Number {
        size: 2,
        value: u32::from(value),
    }
}

// A route, and the two fields that follow it.
fn route_fields(route: Route, first: u16, second: u16) -> [Number; 6]
    ensures { result ≡ route_numbers route (two first ∷ two second ∷ []) }
{
    [
        byte(route.network),
        byte(route.pc),
        word(route.module_io),
        byte(route.station),
        word(first),
        word(second),
    ]
}

// Writes the subheader of a reply, in 4E with the serial and the zero word, at the front of `out`, and says where the route begins.
fn write_subheader<C: WireCode>(out: &mut [u8], header: Header) -> usize
    requires { 12 ≤ length out.old }
    ensures end { result ≡ series_size (subheader_numbers header.form header) * per_byte C.WireCode.which }
    ensures written { out.new ≡ sets out.old 0 (series_bytes C.WireCode.which (subheader_numbers header.form header)) }
{
    match header.form {
        Form::ThreeE => write_series::<C>(out, 0, &[byte(0xD0), byte(0)]),
        Form::FourE => write_series::<C>(
            out,
            0,
            &[byte(0xD4), byte(0), word(header.serial), word(0)],
        ),
    }
}

// Writes what stands before `data_size` wire bytes of data at the front of `out`, and says where the data begin.
pub fn write_head<C: WireCode>(out: &mut [u8], header: Header, data_size: usize, end: u16) -> usize
    requires { (30 ≤ length out.old) × (data_size ≤ 8192) }
    ensures end { result ≡ head_size header.form * per_byte C.WireCode.which }
    ensures written { out.new ≡ sets out.old 0 (head_bytes C.WireCode.which header data_size end) }
{
    let length = (C::field_size(2) + data_size) as u16;
    let at = write_subheader::<C>(out, header);
    write_series::<C>(out, at, &route_fields(header.route, length, end))
}

// Writes the data of an error reply from `at` on, and says where they end.
pub fn write_error_data<C: WireCode>(out: &mut [u8], at: usize, header: Header) -> usize
    requires { at + 18 ≤ length out.old }
    ensures end { result ≡ at + 9 * per_byte C.WireCode.which }
    ensures written { out.new ≡ sets out.old at (series_bytes C.WireCode.which (error_numbers header)) }
{
    write_series::<C>(
        out,
        at,
        &route_fields(header.route, header.command, header.subcommand),
    )
}
