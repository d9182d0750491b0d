// Why a memory declines a call.
ghost use Rattle.std.specs.Prelude.{◌≡◌};
ghost use Rattle.memory.specs.Refusals.{number_of};

#[derive(Clone, Copy, PartialEq, Eq, Debug)]
pub enum Refusal {
    // an extent is too large, or the space lent is too short
    NoRoom = 9,
    // one lock too many, or a last number before the first
    NoLock = 10,
    // the point lies outside the extent
    Outside = 11,
    // the point is closed to writing
    Closed = 12,
    // the value is too wide for the kind of point
    TooWide = 13,
}

impl Refusal {
    // The number under which the bench knows the refusal.
    pub fn number(self) -> u8
        ensures { result ≡ number_of self }
    {
        self as u8
    }
}
