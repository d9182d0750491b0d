// Which command a frame carries, and the reader of its data.
ghost use Rattle.std.specs.Prelude.{◌≡◌, ◌≤◌, length, IfOk};
ghost use Rattle.request.specs.Judging.{judged};
ghost use Rattle.request.specs.Requests.{Monitor as Monitoring};
ghost use Rattle.request.specs.Readings.{held, said, Whole, Stands, request_in};
ghost use Rattle.request.specs.Laws.{Alike, Passed, Bounded};

use crate::fields::Place;
use crate::types::Request;
use crate::{batch, random};
use frame::{Cause, Fault, Header};
use memory::{ReadableMemory, WritableMemory};
use wire::WireCode;

// 0802 with 0000: a monitor request. It has no data.
fn read_monitor<'a, C: WireCode, M: ReadableMemory>(
    memory: &M,
    place: Place<'a>,
) -> Result<Request<'a>, Fault>
    ensures value { said C.WireCode.which result ≡ judged C.WireCode.which (M.ReadableMemory.means memory.now) Monitoring place.entry.frame.now place.entry.at }
    ensures whole { IfOk (held result) (Whole C.WireCode.which) }
    ensures stands { IfOk (held result) (Stands C.WireCode.which place.entry.frame.now place.entry.at) }
{
    place.ended()?;
    Ok(Request::Monitor)
}

// The request of a frame whose header was read: the command first, then its data.
fn read_command<'a, C: WireCode, M: WritableMemory>(
    memory: &M,
    frame: &'a [u8],
    header: Header,
    write_flag: bool,
) -> Result<Request<'a>, Fault>
    requires { header.data_at ≤ length frame.now }
    ensures value { said C.WireCode.which result ≡ request_in C.WireCode.which (M.ReadableMemory.means memory.now) write_flag header frame.now }
    ensures whole { IfOk (held result) (Whole C.WireCode.which) }
    ensures stands { IfOk (held result) (Stands C.WireCode.which frame.now header.data_at) }
{
    let place = Place {
        frame,
        at: header.data_at,
    };
    // Command and subcommand stay numbers: an error reply repeats them as they came.
    match (header.command, header.subcommand) {
        (0x0401, 0x0001) => batch::read_bits::<C, M>(memory, place),
        (0x0401, 0x0000) => batch::read_words::<C, M>(memory, place),
        (0x0403, 0x0000) => random::read_random::<C, M>(memory, place),
        (0x0801, 0x0000) => random::register::<C, M>(memory, place),
        (0x0802, 0x0000) => read_monitor::<C, M>(memory, place),
        (0x1401 | 0x1402, 0x0000 | 0x0001) if !write_flag => Err(Cause::WriteOff.at(
            header.command_at,
        )),
        (0x1401, 0x0001) => batch::write_bits::<C, M>(memory, place),
        (0x1401, 0x0000) => batch::write_words::<C, M>(memory, place),
        (0x1402, 0x0001) => random::write_random_bits::<C, M>(memory, place),
        (0x1402, 0x0000) => random::write_random::<C, M>(memory, place),
        _ => Err(Cause::UnknownCommand.at(header.command_at)),
    }
}

// Reads the request of a frame whose header was read, and tests it over the memory.
pub fn read_request<'a, C: WireCode, M: WritableMemory>(
    memory: &M,
    frame: &'a [u8],
    header: Header,
    write_flag: bool,
) -> Result<Request<'a>, Fault>
    requires { header.data_at ≤ length frame.now }
    ensures value { said C.WireCode.which result ≡ request_in C.WireCode.which (M.ReadableMemory.means memory.now) write_flag header frame.now }
    ensures whole { IfOk (held result) (Whole C.WireCode.which) }
    ensures stands { IfOk (held result) (Stands C.WireCode.which frame.now header.data_at) }
    ensures alike { Alike C.WireCode.which (M.ReadableMemory.means memory.now) write_flag header frame.now (said C.WireCode.which result) }
    ensures passed { Passed (M.ReadableMemory.means memory.now) (said C.WireCode.which result) }
    ensures bounded { IfOk (held result) (Bounded (M.ReadableMemory.means memory.now)) }
{
    read_command::<C, M>(memory, frame, header, write_flag)
}
