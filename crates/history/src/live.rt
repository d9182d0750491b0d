// One call of a history, in a window or not.
// Memory, settings and registration are apart here and in the loops over calls, as in the server: a window lends the settings while the others are written.
ghost use Rattle.std.specs.Prelude.{◌≡◌, false, is_ok, IfOk, MatchResult};
ghost use Rattle.server.specs.Registered.{registered};
ghost use Rattle.memory.specs.Leaving.{Leads};
ghost use Rattle.server.specs.Histories.{frame, Aside, state_at, made_by};
ghost use Rattle.server.specs.Kept.{CarriesOn};
ghost use Rattle.history.specs.Moves.{move, showing, StaysIn};

use crate::call::{Call, Outcome};
use crate::windows::declined;
use memory::{ReadableMemory, WritableMemory};
use server::{Registration, Settings, set_point, take_frame};
use std::alloc::{AllocError, Global};
use wire::Code;

// Takes the frame at the front of `bytes`, with a reply space that begins as `space`. Where memory does not suffice for it, nothing is carried out.
fn answer_frame<M: WritableMemory>(
    heap: Global,
    code: Code,
    bytes: &[u8],
    space: &[u8],
    memory: &mut M,
    settings: &Settings,
    registration: &mut Registration,
) -> Result<Outcome, AllocError>
    ensures left { let s = state_at M.means registered memory.old settings.now registration.old in
        let made = λ (w : Aside). made_by (s w) (frame code bytes.now space.now) in
        MatchResult result (λ _. (w : Aside) → Leads M.leaves memory.old (made w) memory.new) (λ _. memory.new ≡ memory.old) }
    ensures carries { let s = state_at M.means registered memory.old settings.now registration.old in
        let s' = state_at M.means registered memory.new settings.now registration.new in
        IfOk result (λ o. (w : Aside) → CarriesOn (s w) (frame code bytes.now space.now) (showing o) (s' w)) }
    ensures kept { is_ok result ≡ false →
        (M.means memory.new ≡ M.means memory.old) × (registered registration.new ≡ registered registration.old) }
{
    let mut space = Vec::from_slice(heap, space)?;
    let answer = take_frame(
        code,
        bytes,
        space.as_mut_slice(),
        memory,
        settings,
        registration,
    );
    Ok(Outcome::Taken { answer, space })
}

// Carries out a call that opens and ends no window: a frame, a value given by the bench, or what is declined, which is an opening within a window and
// an ending outside one.
// Where memory does not suffice for it, nothing is carried out.
pub(crate) fn carry_out<M: WritableMemory>(
    heap: Global,
    call: Call<'_>,
    memory: &mut M,
    settings: &Settings,
    registration: &mut Registration,
) -> Result<Outcome, AllocError>
    ensures left { let s = state_at M.means registered memory.old settings.now registration.old in
        let made = λ (w : Aside). made_by (s w) (move call.entry) in
        MatchResult result (λ _. (w : Aside) → Leads M.leaves memory.old (made w) memory.new) (λ _. memory.new ≡ memory.old) }
    ensures carries { let s = state_at M.means registered memory.old settings.now registration.old in
        let s' = state_at M.means registered memory.new settings.now registration.new in
        IfOk result (λ o. (w : Aside) → StaysIn (move call.entry) w → CarriesOn (s w) (move call.entry) (showing o) (s' w)) }
    ensures kept { is_ok result ≡ false →
        (M.means memory.new ≡ M.means memory.old) × (registered registration.new ≡ registered registration.old) }
{
    match call {
        Call::Frame { code, bytes, space } => {
            answer_frame(heap, code, bytes, space, memory, settings, registration)
        }
        Call::Set {
            device,
            number,
            value,
        } => Ok(Outcome::Written(set_point(memory, device, number, value))),
        Call::Open | Call::End => Ok(declined()),
    }
}
