// How much an access reaches. The server has such an enum of its own, which is not public.
ghost use Rattle.std.specs.Prelude.{◌≡◌, ◌≤◌};
ghost use Rattle.bench.specs.Widths.{sent_bytes};

use std::fmt;

// Its number is how many bytes a value of this width is sent as in a list.
#[derive(Clone, Copy, PartialEq, Eq, Debug)]
pub enum Width {
    Bit = 1,
    Word = 2,
    Double = 4,
}

impl Width {
    pub fn bytes(self) -> usize
        ensures value { result ≡ sent_bytes self }
        ensures few { result ≤ 4 }
    {
        self as usize
    }
}

impl fmt::Display for Width {
    fn fmt<W: fmt::Write>(&self, f: &mut fmt::Formatter<W>) -> fmt::Result {
        f.write_str(match self {
            Width::Bit => "bit",
            Width::Word => "word",
            Width::Double => "double word",
        })
    }
}
