// Taking a frame over any memory.
ghost use Rattle.std.specs.Prelude.{◌≡◌, true};
ghost use Rattle.embed.specs.Registered.{is_listing};
ghost use Rattle.embed.specs.Taking.{Serves};

use crate::registered::BenchRegistration;
use crate::results::BenchAnswer;
use memory::{ReadableMemory, WritableMemory};
use server::{Settings, take_frame};
use wire::Code;

// Takes the frame at the front of `frame` with the registration that the caller keeps, and writes one reply at the front of `reply`.
pub(crate) fn take<M: WritableMemory>(
    memory: &mut M,
    code: Code,
    frame: &[u8],
    reply: &mut [u8],
    write_flag: bool,
    kept: &mut BenchRegistration,
) -> BenchAnswer
    requires { is_listing kept.old ≡ true }
    ensures { Serves M.means M.leaves code frame.now write_flag memory.old reply.old kept.old result memory.new reply.new kept.new }
{
    let settings = Settings { write_flag };
    BenchAnswer::of(take_frame(code, frame, reply, memory, &settings, kept))
}
