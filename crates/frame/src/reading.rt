// The tests of a frame, in their fixed order.
ghost use Rattle.std.specs.Prelude.{◌≡◌, ◌+◌, ◌-◌, ◌*◌, ◌^◌, ◌<◌, ◌≤◌, length, IfOk};
ghost use Rattle.wire.specs.Numbers.{per_byte};
ghost use Rattle.frame.specs.Written.{TakenUp};
ghost use Rattle.frame.specs.Headers.{field_fault, number_at, first_two, form_in, lead_bytes, serial_at, route_at, lead_at, frame_size, call_at, fields_at, tested};

use crate::fault::{Cause, Fault};
use crate::header::{Form, Header, Lead, Route};
use wire::{Ascii, Binary, Code, FieldFault, WireCode, number_at};

// The fault of a frame of `present` bytes whose field at `at` cannot be read.
fn field_fault(present: usize, at: usize, fault: FieldFault) -> Fault
    requires { at + 255 < 2 ^ 64 }
    ensures { result ≡ field_fault present at fault }
{
    match fault {
        FieldFault::Missing => Cause::Incomplete.at(present),
        FieldFault::Unknown => Cause::BadDigit.at(at),
        FieldFault::Digit(offset) => Cause::BadDigit.at(at + usize::from(offset)),
    }
}

// The number of `size` bytes at `at`, and the wire bytes it used.
// Like the reader of a field of the data, in the crate above, whose faults have causes of their own.
fn number<C: WireCode>(frame: &[u8], at: usize, size: usize) -> Result<(u32, usize), Fault>
    requires { (size ≤ 4) × (at ≤ length frame.now) }
    ensures value { result ≡ number_at C.WireCode.which frame.now at size }
    ensures within { IfOk result (λ p. (at + p.1 ≤ length frame.now) × (p.0 < 256 ^ size) × (p.1 ≡ size * per_byte C.WireCode.which)) }
{
    number_at::<C>(frame, at, size).map_err(|fault| field_fault(frame.len(), at, fault))
}

// The two bytes of the subheader, in the order in which they are sent.
fn first_two<C: WireCode>(frame: &[u8]) -> Result<(u32, u32), FieldFault>
    ensures { result ≡ first_two C.WireCode.which frame.now }
{
    let (first, used) = number_at::<C>(frame, 0, 1)?;
    let (second, _) = number_at::<C>(frame, used, 1)?;
    Ok((first, second))
}

// The form that the subheader tells: 50 00 for 3E, 54 00 for 4E.
fn read_form<C: WireCode>(frame: &[u8]) -> Result<Form, Fault>
    ensures { result ≡ form_in (first_two C.WireCode.which frame.now) }
{
    match first_two::<C>(frame) {
        Ok((0x50, 0x00)) => Ok(Form::ThreeE),
        Ok((0x54, 0x00)) => Ok(Form::FourE),
        _ => Err(Cause::BadSubheader.at(0)),
    }
}

// How many bytes the fields up to the length have.
// A fact about a form's layout, and no number of the form.
fn lead_bytes(form: Form) -> usize
    ensures value { result ≡ lead_bytes form }
    ensures few { result ≤ 13 }
{
    match form {
        Form::ThreeE => 9,
        Form::FourE => 13,
    }
}

// The serial, the zero word, and where the route begins.
// This and the two functions that lead here ask for the subheader that `read_frame` looked for: a struct for that fact would be made and read once.
fn read_serial<C: WireCode>(frame: &[u8], form: Form) -> Result<(u32, u32, usize), Fault>
    requires { 2 * per_byte C.WireCode.which ≤ length frame.now }
    ensures value { result ≡ serial_at C.WireCode.which form frame.now }
    ensures within { IfOk result (λ s. (s.0 < 65536) × (s.1 < 65536) × (s.2 ≤ length frame.now)) }
{
    let at = C::field_size(2);
    match form {
        Form::ThreeE => Ok((0, 0, at)),
        Form::FourE => {
            let (serial, used) = number::<C>(frame, at, 2)?;
            let at_zero = at + used;
            let (zero, used) = number::<C>(frame, at_zero, 2)?;
            Ok((serial, zero, at_zero + used))
        }
    }
}

// The route at `at`, and where the next field begins.
fn read_route<C: WireCode>(frame: &[u8], at: usize) -> Result<(Route, usize), Fault>
    requires { at ≤ length frame.now }
    ensures value { result ≡ route_at C.WireCode.which frame.now at }
    ensures within { IfOk result (λ p. p.1 ≤ length frame.now) }
{
    let (network, used) = number::<C>(frame, at, 1)?;
    let at_pc = at + used;
    let (pc, used) = number::<C>(frame, at_pc, 1)?;
    let at_module = at_pc + used;
    let (module_io, used) = number::<C>(frame, at_module, 2)?;
    let at_station = at_module + used;
    let (station, used) = number::<C>(frame, at_station, 1)?;
    let route = Route {
        network: network as u8,
        pc: pc as u8,
        module_io: module_io as u16,
        station: station as u8,
    };
    Ok((route, at_station + used))
}

// The fields up to the length.
fn read_lead<C: WireCode>(frame: &[u8], form: Form) -> Result<Lead, Fault>
    requires { 2 * per_byte C.WireCode.which ≤ length frame.now }
    ensures value { result ≡ lead_at C.WireCode.which form frame.now }
    ensures within { IfOk result (λ l. (l.timer_at ≤ length frame.now) × (l.length < 65536)) }
{
    let (serial, zero, at) = read_serial::<C>(frame, form)?;
    let (route, length_at) = read_route::<C>(frame, at)?;
    let (length, used) = number::<C>(frame, length_at, 2)?;
    Ok(Lead {
        form,
        serial: serial as u16,
        zero: zero as u16,
        route,
        length_at,
        length: length as usize,
        timer_at: length_at + used,
    })
}

// The size of the whole frame, once the fields up to the length have been read and tested.
fn frame_size<C: WireCode>(lead: Lead, present: usize) -> Result<usize, Fault>
    requires { lead.timer_at ≤ present }
    ensures value { result ≡ frame_size C.WireCode.which present lead }
    ensures within { IfOk result (λ n. (n ≤ present) × (lead.timer_at + 6 * per_byte C.WireCode.which ≤ n)) }
{
    if lead.zero != 0 {
        return Err(Cause::NonZero.at(C::field_size(4)));
    }
    if lead.length < C::field_size(6) || lead.length > 8192 {
        return Err(Cause::BadLength.at(lead.length_at));
    }
    if present - lead.timer_at < lead.length {
        return Err(Cause::Incomplete.at(present));
    }
    Ok(lead.timer_at + lead.length)
}

// The timer, the command and the subcommand.
fn read_call<C: WireCode>(frame: &[u8], lead: Lead, size: usize) -> Result<Header, Fault>
    requires { (lead.timer_at + 6 * per_byte C.WireCode.which ≤ size) × (size ≤ length frame.now) }
    ensures value { result ≡ call_at C.WireCode.which frame.now lead size }
    ensures within { IfOk result (λ h. (h.size ≤ length frame.now) × (h.data_at ≤ h.size)) }
{
    let (timer, used) = number::<C>(frame, lead.timer_at, 2)?;
    let command_at = lead.timer_at + used;
    let (command, used) = number::<C>(frame, command_at, 2)?;
    let subcommand_at = command_at + used;
    let (subcommand, used) = number::<C>(frame, subcommand_at, 2)?;
    Ok(Header {
        form: lead.form,
        serial: lead.serial,
        route: lead.route,
        timer: timer as u16,
        command: command as u16,
        subcommand: subcommand as u16,
        command_at,
        data_at: subcommand_at + used,
        size,
    })
}

// Reads what follows the subheader of a frame whose fields up to the length are all there.
fn read_fields<C: WireCode>(frame: &[u8], form: Form) -> Result<Header, Fault>
    requires { 2 * per_byte C.WireCode.which ≤ length frame.now }
    ensures value { result ≡ fields_at C.WireCode.which form frame.now }
    ensures within { IfOk result (λ h. (h.size ≤ length frame.now) × (h.data_at ≤ h.size)) }
{
    let lead = read_lead::<C>(frame, form)?;
    let size = frame_size::<C>(lead, frame.len())?;
    read_call::<C>(frame, lead, size)
}

// Tests the frame at the front of `frame`, for a reply space of `space` bytes, and reads its header.
pub fn read_frame<C: WireCode>(frame: &[u8], space: usize) -> Result<Header, Fault>
    ensures value { result ≡ tested C.WireCode.which space frame.now }
    ensures within { IfOk result (λ h. (h.size ≤ length frame.now) × (h.data_at ≤ h.size) × (4096 ≤ space)) }
    ensures back { TakenUp C.WireCode.which space frame.now result }
{
    let present = frame.len();
    if space < 4096 {
        return Err(Cause::NoReplySpace.at(0));
    }
    if present < C::field_size(2) {
        return Err(Cause::Incomplete.at(present));
    }
    let form = read_form::<C>(frame)?;
    if present < C::field_size(lead_bytes(form)) {
        return Err(Cause::Incomplete.at(present));
    }
    read_fields::<C>(frame, form)
}

// Tests the frame at the front of `frame` in a code, for a reply space of `space` bytes, and reads its header.
// A code is a type below, so a code that is a value is picked by a match here.
#[tactic(auto, using(crate::proofs::Written::so_taken_up))]
pub fn read_header(code: Code, frame: &[u8], space: usize) -> Result<Header, Fault>
    ensures value { result ≡ tested code space frame.now }
    ensures within { IfOk result (λ h. (h.size ≤ length frame.now) × (h.data_at ≤ h.size) × (4096 ≤ space)) }
    ensures back { TakenUp code space frame.now result }
{
    match code {
        Code::Binary => read_frame::<Binary>(frame, space),
        Code::Ascii => read_frame::<Ascii>(frame, space),
    }
}
