// A device, what its points hold, and how its numbers are written.
ghost use Rattle.std.specs.Prelude.{◌≡◌, ◌<◌};
ghost use Rattle.device.specs.Devices.{place_of};

// In ascending order of their codes.
#[derive(Clone, Copy, PartialEq, Eq, Debug)]
pub enum Device {
    M,
    SM,
    L,
    X,
    Y,
    B,
    D,
    SD,
    ZR,
    W,
    TS,
    TN,
}

// A bit device's point is 0 or 1, a word device's point is 0 to 65,535.
#[derive(Clone, Copy, PartialEq, Eq, Debug)]
pub enum Kind {
    Bit,
    Word,
}

// The notation of a device's numbers, in ASCII fields and in print.
#[derive(Clone, Copy, PartialEq, Eq, Debug)]
pub enum Notation {
    Decimal,
    Hexadecimal,
}

impl Device {
    // The device's place in the table of devices.
    pub fn place(self) -> usize
        ensures value { result ≡ place_of self }
        ensures within { result < 12 }
    {
        self as usize
    }
}
