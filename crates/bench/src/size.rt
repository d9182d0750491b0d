// The size of a reply space that a script gives.
ghost use Rattle.std.specs.Prelude.{◌≤◌};

#[derive(Clone, Copy)]
pub struct SpaceSize {
    pub bytes: usize,
    ghost small: { bytes ≤ 65536 },
}
