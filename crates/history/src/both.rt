// Carrying out paired calls on two servers.
ghost use Rattle.std.specs.Prelude.{take, vec_len};
ghost use Rattle.memory.specs.Leaving.{Leads};
ghost use Rattle.server.specs.Histories.{state_of, made_through};
ghost use Rattle.history.specs.Moves.{moves};
ghost use Rattle.history.specs.Replays.{Replays, BothAlike};

use crate::call::Call;
use crate::replaying::{Replayed, replay};
use memory::{ReadableMemory, WritableMemory};
use server::Server;
use std::alloc::Global;

// What came of the calls on either server.
#[derive(Drop)]
pub struct Both {
    pub left: Replayed,
    pub right: Replayed,
}

// Carries out a list of calls on each of two servers, which may keep their points in other ways.
// Where both start alike and the calls are paired, the outcomes say the same and both servers end alike.
pub fn replay_both<M: WritableMemory, N: WritableMemory>(
    heap: Global,
    left: &mut Server<M>,
    right: &mut Server<N>,
    left_calls: &[Call<'_>],
    right_calls: &[Call<'_>],
) -> Both
    ensures left { Replays (state_of M.means left.old) left_calls.now result.left (state_of M.means left.new) }
    ensures right { Replays (state_of N.means right.old) right_calls.now result.right (state_of N.means right.new) }
    ensures left_led { let done = take (vec_len result.left.outcomes) (moves left_calls.now) in
        Leads M.leaves left.old.memory (made_through (state_of M.means left.old) done) left.new.memory }
    ensures right_led { let done = take (vec_len result.right.outcomes) (moves right_calls.now) in
        Leads N.leaves right.old.memory (made_through (state_of N.means right.old) done) right.new.memory }
    ensures alike { let here = BothAlike (state_of M.means left.old) (state_of N.means right.old) left_calls.now right_calls.now in
        here result.left result.right (state_of M.means left.new) (state_of N.means right.new) }
{
    Both {
        left: replay(heap, left, left_calls),
        right: replay(heap, right, right_calls),
    }
}
