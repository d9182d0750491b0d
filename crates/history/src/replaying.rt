// Carrying out a list of calls.
ghost use Rattle.std.specs.Prelude.{◌≡◌, ◌+◌, ◌<◌, ◌≤◌, List, true, false, [], length, take, is_ok, vec_len, vec_capacity};
ghost use Rattle.std.specs.Slice.Iter.{iter_rest};
ghost use Rattle.memory.specs.Leaving.{Leads};
ghost use Rattle.server.specs.Registered.{registered};
ghost use Rattle.server.specs.Histories.{Move, State, no_window, state_at, state_of, in_window_of, made_through, Ran};
ghost use Rattle.history.specs.Moves.{moves, showings, Left, SoFar};
ghost use Rattle.history.specs.Replays.{Replays};

use crate::call::{Call, Outcome};
use crate::live::carry_out;
use crate::windows::carried_out;
use memory::{ReadableMemory, WritableMemory};
use server::{Registration, Server, Settings, Window};
use std::alloc::{AllocError, Global};
use std::slice::Iter;

// The calls that fall into a window, until its end or the end of the list. There is an outcome for each call that was carried out.
fn run_window<M: WritableMemory>(
    heap: Global,
    calls: &mut Iter<'_, Call<'_>>,
    memory: &mut M,
    settings: &mut Settings,
    registration: &mut Registration,
    outcomes: &mut Vec<Outcome>,
) -> Result<(), AllocError>
    requires room { vec_len outcomes.old + length (iter_rest calls.old) ≤ vec_capacity outcomes.old }
    ensures few { (vec_len outcomes.old ≤ vec_len outcomes.new) × (vec_len outcomes.new + length (iter_rest calls.new) ≤ vec_len outcomes.old + length (iter_rest calls.old)) }
    ensures room { vec_len outcomes.old + length (iter_rest calls.old) ≤ vec_capacity outcomes.new }
    ensures led { let here = in_window_of M.means memory.old settings.old registration.old in
        (s : State) (all : List Move) (from : M) → SoFar s all (iter_rest calls.old) outcomes.old here →
        Leads M.leaves from (made_through s (take (vec_len outcomes.old) all)) memory.old →
        Leads M.leaves from (made_through s (take (vec_len outcomes.new) all)) memory.new }
    ensures flag { settings.new.write_flag ≡ settings.old.write_flag }
    ensures ran { let here = in_window_of M.means memory.old settings.old registration.old in
        let behind = state_at M.means registered memory.new settings.old registration.new no_window in
        (s : State) (all : List Move) → SoFar s all (iter_rest calls.old) outcomes.old here →
        Ran s (take (vec_len outcomes.new) all) (showings outcomes.new.items) behind }
    ensures reached { is_ok result ≡ true → 0 < length (iter_rest calls.new) →
        let here = in_window_of M.means memory.old settings.old registration.old in
        let behind = state_at M.means registered memory.new settings.old registration.new no_window in
        (s : State) (all : List Move) → SoFar s all (iter_rest calls.old) outcomes.old here → SoFar s all (iter_rest calls.new) outcomes.new behind }
    ensures left { is_ok result ≡ true → (all : List Move) → Left all (vec_len outcomes.old) (iter_rest calls.old) → Left all (vec_len outcomes.new) (iter_rest calls.new) }
    ensures whole { is_ok result ≡ true → vec_len outcomes.new + length (iter_rest calls.new) ≡ vec_len outcomes.old + length (iter_rest calls.old) }
    ensures want { is_ok result ≡ false → vec_len outcomes.new + length (iter_rest calls.new) < vec_len outcomes.old + length (iter_rest calls.old) }
{
    let window = Window::open(settings);
    // A `while let`: after a `for` over the iterator it is not proved which calls are left.
    while let Some(call) = calls.next() {
        if let Call::End = call {
            outcomes.push_reserved(carried_out(window.was()));
            return Ok(());
        }
        let outcome = carry_out(heap, *call, memory, window.settings(), registration)?;
        outcomes.push_reserved(outcome);
    }
    Ok(())
}

// What came of a list of calls: an outcome for each call that was carried out, and whether memory sufficed for all of them.
#[derive(Drop)]
pub struct Replayed {
    pub outcomes: Vec<Outcome>,
    pub end: Result<(), AllocError>,
}

// Carries out the calls until none is left, or memory does not suffice for the next one.
fn run_calls<M: WritableMemory>(
    heap: Global,
    server: &mut Server<M>,
    calls: &[Call<'_>],
    outcomes: &mut Vec<Outcome>,
) -> Result<(), AllocError>
    requires room { length calls.now ≤ vec_capacity outcomes.old }
    requires none { (vec_len outcomes.old ≡ 0) × (outcomes.old.items ≡ []) }
    ensures led { let done = take (vec_len outcomes.new) (moves calls.now) in
        Leads M.leaves server.old.memory (made_through (state_of M.means server.old) done) server.new.memory }
    ensures flag { server.new.settings.write_flag ≡ server.old.settings.write_flag }
    ensures ran { let done = take (vec_len outcomes.new) (moves calls.now) in
        let behind = state_at M.means registered server.new.memory server.old.settings server.new.registration no_window in
        Ran (state_of M.means server.old) done (showings outcomes.new.items) behind }
    ensures whole { is_ok result ≡ true → vec_len outcomes.new ≡ length calls.now }
    ensures want { is_ok result ≡ false → vec_len outcomes.new < length calls.now }
{
    let mut calls = calls.iter();
    // A `while let`, since a window takes the iterator on. It differs from the loop above in what an opening and an ending mean.
    while let Some(call) = calls.next() {
        if let Call::Open = call {
            outcomes.push_reserved(carried_out(true));
            run_window(
                heap,
                &mut calls,
                &mut server.memory,
                &mut server.settings,
                &mut server.registration,
                outcomes,
            )?;
        } else {
            let outcome = carry_out(
                heap,
                *call,
                &mut server.memory,
                &server.settings,
                &mut server.registration,
            )?;
            outcomes.push_reserved(outcome);
        }
    }
    Ok(())
}

// Carries out the calls one after the other, from a server with no window open, and keeps what each answered. A window that the calls leave open ends with
// them. Where memory for the outcomes or a reply is wanting, the calls before are carried out and told, and no other one.
pub fn replay<M: WritableMemory>(
    heap: Global,
    server: &mut Server<M>,
    calls: &[Call<'_>],
) -> Replayed
    ensures led { let done = take (vec_len result.outcomes) (moves calls.now) in
        Leads M.leaves server.old.memory (made_through (state_of M.means server.old) done) server.new.memory }
    ensures replays { Replays (state_of M.means server.old) calls.now result (state_of M.means server.new) }
{
    match Vec::with_capacity(heap, calls.len()) {
        Ok(mut outcomes) => {
            let end = run_calls(heap, server, calls, &mut outcomes);
            Replayed { outcomes, end }
        }
        Err(want) => Replayed {
            outcomes: Vec::new(heap),
            end: Err(want),
        },
    }
}
