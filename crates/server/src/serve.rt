// Takes one frame and carries its request out.
ghost use Rattle.std.specs.Prelude.{◌≡◌, ◌<◌, ◌≤◌, true, length, is_some, IfOk, Ok};
ghost use Rattle.memory.specs.Leaving.{Leads};
ghost use Rattle.server.specs.Points.{words};
ghost use Rattle.request.specs.Laws.{Bounded, Passed};
ghost use Rattle.request.specs.Readings.{held, said, Whole, request_in};
ghost use Rattle.server.specs.Histories.{frame as taking, Aside, no_window, state_at, made_by, shown_by};
ghost use Rattle.server.specs.Kept.{CarriesOn};
ghost use Rattle.server.specs.Laws.{FaultsMoveNothing, ReadsMoveNothing};
ghost use Rattle.server.specs.Taking.{IsServed};
ghost use Rattle.server.specs.Serves.{Came, answered, served};

use crate::answer::Answer;
use crate::registering::Registering;
use crate::reply::Reply;
use crate::settings::Settings;
use crate::storing::{put_bits, put_random, put_random_bits, put_words};
use frame::{Fault, Header, read_frame};
use memory::{ReadableMemory, WritableMemory};
use request::{Request, read_request};
use wire::{Ascii, Binary, Code, WireCode};

// Carries out a request that passed its tests.
// Memory, settings and registration are apart here and below, since a window lends the settings while the others are written.
fn carry_out<C: WireCode, M: WritableMemory, R: Registering>(
    reply: &mut Reply<'_>,
    request: Request<'_>,
    memory: &mut M,
    registration: &mut R,
) -> Answer
    requires whole { IfOk (held (Ok request)) (Whole C.which) }
    requires bounded { IfOk (held (Ok request)) (Bounded (M.means memory.old)) }
    requires passed { Passed (M.means memory.old) (said C.which (Ok request)) }
    ensures came { let what = answered C.which reply.old.header (M.means memory.old) (R.lists registration.old) (said C.which (Ok request.entry)) in
        Came what result reply.old.space.now reply.new.space.now (M.means memory.new) (R.lists registration.new) }
    ensures left { let what = answered C.which reply.old.header (M.means memory.old) (R.lists registration.old) (said C.which (Ok request.entry)) in
        Leads M.leaves memory.old what.writes memory.new }
    ensures good { R.good registration.old → R.good registration.new }
    ensures declined { is_some result.fault ≡ true → registration.new ≡ registration.old }
    ensures name { reply.new.space.ghost_name ≡ reply.old.space.ghost_name }
    ensures fits { result.length ≤ length reply.old.space.now }
{
    match request {
        Request::ReadBits {
            device,
            number,
            points,
        } => reply.show_bits::<C, M>(memory, device, number, points),
        Request::ReadWords {
            device,
            number,
            points,
        } => reply.show_words::<C, M>(memory, device, number, points),
        Request::WriteBits {
            device,
            number,
            points,
            data,
            ..
        } => {
            put_bits::<C, M>(memory, device, number, points, data);
            reply.accept::<C>()
        }
        Request::WriteWords {
            device,
            number,
            points,
            data,
            ..
        } => {
            put_words::<C, M>(memory, device, number, points, data);
            reply.accept::<C>()
        }
        Request::ReadRandom {
            words,
            doubles,
            list,
            ..
        } => reply.show_random::<C, M>(memory, list, words, doubles),
        Request::Register {
            words,
            doubles,
            list,
            ..
        } => {
            registration.replace::<C>(list, words, doubles);
            reply.accept::<C>()
        }
        Request::Monitor => reply.show_registered::<C, M, R>(memory, registration),
        Request::WriteRandomBits { count, list, .. } => {
            put_random_bits::<C, M>(memory, list, count);
            reply.accept::<C>()
        }
        Request::WriteRandom {
            words,
            doubles,
            list,
            ..
        } => {
            put_random::<C, M>(memory, list, words, doubles);
            reply.accept::<C>()
        }
    }
}

// Answers a request that was read, or the fault that was found in it, which changes nothing.
fn answer_request<C: WireCode, M: WritableMemory, R: Registering>(
    reply: &mut Reply<'_>,
    request: Result<Request<'_>, Fault>,
    memory: &mut M,
    registration: &mut R,
) -> Answer
    requires whole { IfOk (held request) (Whole C.which) }
    requires bounded { IfOk (held request) (Bounded (M.means memory.old)) }
    requires passed { Passed (M.means memory.old) (said C.which request) }
    ensures came { let what = answered C.which reply.old.header (M.means memory.old) (R.lists registration.old) (said C.which request.entry) in
        Came what result reply.old.space.now reply.new.space.now (M.means memory.new) (R.lists registration.new) }
    ensures left { let what = answered C.which reply.old.header (M.means memory.old) (R.lists registration.old) (said C.which request.entry) in
        Leads M.leaves memory.old what.writes memory.new }
    ensures good { R.good registration.old → R.good registration.new }
    ensures declined { is_some result.fault ≡ true → registration.new ≡ registration.old }
    ensures name { reply.new.space.ghost_name ≡ reply.old.space.ghost_name }
    ensures fits { result.length ≤ length reply.old.space.now }
{
    match request {
        Ok(request) => carry_out::<C, M, R>(reply, request, memory, registration),
        Err(fault) => reply.refuse::<C>(fault),
    }
}

// Answers a frame that passed its tests: `frame` is the frame alone.
fn answer_frame<C: WireCode, M: WritableMemory, R: Registering>(
    frame: &[u8],
    reply: &mut Reply<'_>,
    memory: &mut M,
    settings: &Settings,
    registration: &mut R,
) -> Answer
    requires { reply.old.header.data_at ≤ length frame.now }
    ensures came { let a = request_in C.which (M.means memory.old) settings.now.write_flag reply.old.header frame.now in
        let what = answered C.which reply.old.header (M.means memory.old) (R.lists registration.old) a in
        Came what result reply.old.space.now reply.new.space.now (M.means memory.new) (R.lists registration.new) }
    ensures left { let asked = request_in C.which (M.means memory.old) settings.now.write_flag reply.old.header frame.now in
        let what = answered C.which reply.old.header (M.means memory.old) (R.lists registration.old) asked in
        Leads M.leaves memory.old what.writes memory.new }
    ensures good { R.good registration.old → R.good registration.new }
    ensures declined { is_some result.fault ≡ true → registration.new ≡ registration.old }
    ensures name { reply.new.space.ghost_name ≡ reply.old.space.ghost_name }
    ensures fits { result.length ≤ length reply.old.space.now }
{
    let request = read_request::<C, M>(memory, frame, reply.header, settings.write_flag);
    answer_request::<C, M, R>(reply, request, memory, registration)
}

// Takes the frame at the front of `frame`, in the code that the trait says.
fn serve<C: WireCode, M: WritableMemory, R: Registering>(
    frame: &[u8],
    reply: &mut [u8],
    memory: &mut M,
    settings: &Settings,
    registration: &mut R,
) -> Answer
    ensures came { let what = served C.which frame.now (length reply.old) (M.means memory.old) settings.now.write_flag (R.lists registration.old) in
        Came what result reply.old reply.new (M.means memory.new) (R.lists registration.new) }
    ensures left { let what = served C.which frame.now (length reply.old) (M.means memory.old) settings.now.write_flag (R.lists registration.old) in
        Leads M.leaves memory.old what.writes memory.new }
    ensures good { R.good registration.old → R.good registration.new }
    ensures declined { is_some result.fault ≡ true → registration.new ≡ registration.old }
    ensures fits { (result.taken ≤ length frame.now) × (result.length ≤ length reply.old) }
{
    match read_frame::<C>(frame, reply.len()) {
        Ok(header) => answer_frame::<C, M, R>(
            &frame[..header.size],
            &mut Reply {
                space: reply,
                header,
            },
            memory,
            settings,
            registration,
        ),
        Err(fault) => Answer {
            taken: 0,
            length: 0,
            fault: Some(fault),
        },
    }
}

// Takes the frame at the front of `frame`, in the code that the call names, and writes one reply at the front of `reply`, whose bytes behind it are kept.
// The answer tells the bytes taken, the reply's length and the fault. A frame that is not taken up (1, where `reply` has under 4,096 bytes, to 6) takes
// nothing and has no reply; a refused request (an end code other than 0000) takes its frame and has an error reply. Either leaves the memory and the
// registration what they were; an accepted request makes its point writes in the memory and nothing else.
// A code is a type below, so a code that is a value is picked by a match here.
pub fn take_frame<M: WritableMemory, R: Registering>(
    code: Code,
    frame: &[u8],
    reply: &mut [u8],
    memory: &mut M,
    settings: &Settings,
    registration: &mut R,
) -> Answer
    ensures served { let s = state_at M.means R.lists memory.old settings.now registration.old no_window in
        let s' = state_at M.means R.lists memory.new settings.now registration.new no_window in
        IsServed s code frame.now result reply.old reply.new s' }
    ensures left { let s = state_at M.means R.lists memory.old settings.now registration.old no_window in
        Leads M.leaves memory.old (made_by s (taking code frame.now reply.old)) memory.new }
    ensures good { R.good registration.old → R.good registration.new }
    ensures fits { (result.taken ≤ length frame.now) × (result.length ≤ length reply.old) }
    ensures faults { FaultsMoveNothing result memory.old registration.old memory.new registration.new }
    ensures reads { ReadsMoveNothing code frame.now (length reply.old) memory.old memory.new }
    ensures carries { (aside : Aside) →
        let s = state_at M.means R.lists memory.old settings.now registration.old aside in
        let s' = state_at M.means R.lists memory.new settings.now registration.new aside in
        CarriesOn s (taking code frame.now reply.old) (shown_by result reply.new) s' }
{
    match code {
        Code::Binary => serve::<Binary, M, R>(frame, reply, memory, settings, registration),
        Code::Ascii => serve::<Ascii, M, R>(frame, reply, memory, settings, registration),
    }
}
