// What came of opening or ending a window.
ghost use Rattle.std.specs.Prelude.{◌≡◌, Some, None};
ghost use Rattle.server.specs.Histories.{window};
ghost use Rattle.history.specs.Moves.{showing};

use crate::call::Outcome;

// It was carried out, and the write flag is then this.
pub(crate) fn carried_out(write_flag: bool) -> Outcome
    ensures { showing result ≡ window (Some write_flag) }
{
    Outcome::Window(Some(write_flag))
}

// It was declined.
pub(crate) fn declined() -> Outcome
    ensures { showing result ≡ window None }
{
    Outcome::Window(None)
}
