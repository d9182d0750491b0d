// What a line of a script should have had where it cannot be read.
ghost use Rattle.std.specs.Prelude.{◌≡◌};
ghost use Rattle.bench.specs.declared.expected.Expected.TheVariants.{Memory};

use std::alloc::{AllocError, AllocFailed};
use std::fmt;

#[derive(Clone, Copy, PartialEq, Eq, Debug)]
pub enum Expected {
    // the name of a call
    Call,
    // the form of a memory's storage
    Form,
    // a memory's extents
    Extents,
    // a device's symbol
    Symbol,
    // a number
    Number,
    // a point's value
    Value,
    // the write flag
    Flag,
    // the code of a frame
    Code,
    // the size of the reply space
    Space,
    // bytes in hexadecimal digits
    Hex,
    // words in hexadecimal digits
    Words,
    // the closing quotation mark of a text
    Quote,
    // the end of the line
    End,
    // a line that there is memory for
    Memory,
}

// The same in words, to stand behind "expected".
impl fmt::Display for Expected {
    fn fmt<W: fmt::Write>(&self, f: &mut fmt::Formatter<W>) -> fmt::Result {
        f.write_str(match self {
            Expected::Call => "memory, lock, server, set, look, frame, open, end, run or final",
            Expected::Form => "packed or image",
            Expected::Extents =>
                "extents such as D=16,M=64, each device at most once, or - for none",
            Expected::Symbol => "a device: M, SM, L, X, Y, B, D, SD, ZR, W, TS or TN",
            Expected::Number => "a decimal number from 0 to 4294967295",
            Expected::Value => "a decimal value from 0 to 65535",
            Expected::Flag => "on or off",
            Expected::Code => "ascii or binary",
            Expected::Space => "a reply space from 0 to 65536 bytes, in decimal",
            Expected::Hex => "hexadecimal digits, two for each byte, or - for none",
            Expected::Words => "hexadecimal digits, four for each word, or - for none",
            Expected::Quote => "a text between two quotation marks",
            Expected::End => "nothing more on the line",
            Expected::Memory => "a shorter script: no memory is left for this line",
        })
    }
}

impl From<AllocError> for Expected {
    ghost from_gives = { λ _ expected. expected ≡ Memory };

    fn from(_error: AllocError) -> Expected {
        Expected::Memory
    }
}

impl<T: Drop> From<AllocFailed<T>> for Expected {
    ghost from_gives = { λ _ expected. expected ≡ Memory };

    fn from(_refused: AllocFailed<T>) -> Expected {
        Expected::Memory
    }
}
