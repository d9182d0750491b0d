// The table of devices, in ascending order of code, and its search by code and by symbol.
ghost use Rattle.std.specs.Prelude.{◌≡◌, ◌==◌, ◌&&◌, ◌<◌, [], ◌∷◌, MatchOption, ◌≢◌};
ghost use Rattle.device.specs.Devices.{code_of, kind_of, symbol_of, notation_of, row_of};
ghost use Rattle.device.specs.Search.{has_code, has_symbol, device_by_code, device_by_symbol};
ghost use Rattle.device.specs.declared.types.Device.{Device};

use crate::types::{Device, Kind, Notation};

// A device with its code, its symbol filled to two characters by a star, its kind and its notation.
#[derive(Clone, Copy)]
pub struct Row {
    pub device: Device,
    pub code: u8,
    pub symbol: [u8; 2],
    pub kind: Kind,
    pub notation: Notation,
}

pub static DEVICES: [Row; 12] = [
    Row {
        device: Device::M,
        code: 0x90,
        symbol: *b"M*",
        kind: Kind::Bit,
        notation: Notation::Decimal,
    },
    Row {
        device: Device::SM,
        code: 0x91,
        symbol: *b"SM",
        kind: Kind::Bit,
        notation: Notation::Decimal,
    },
    Row {
        device: Device::L,
        code: 0x92,
        symbol: *b"L*",
        kind: Kind::Bit,
        notation: Notation::Decimal,
    },
    Row {
        device: Device::X,
        code: 0x9C,
        symbol: *b"X*",
        kind: Kind::Bit,
        notation: Notation::Hexadecimal,
    },
    Row {
        device: Device::Y,
        code: 0x9D,
        symbol: *b"Y*",
        kind: Kind::Bit,
        notation: Notation::Hexadecimal,
    },
    Row {
        device: Device::B,
        code: 0xA0,
        symbol: *b"B*",
        kind: Kind::Bit,
        notation: Notation::Hexadecimal,
    },
    Row {
        device: Device::D,
        code: 0xA8,
        symbol: *b"D*",
        kind: Kind::Word,
        notation: Notation::Decimal,
    },
    Row {
        device: Device::SD,
        code: 0xA9,
        symbol: *b"SD",
        kind: Kind::Word,
        notation: Notation::Decimal,
    },
    Row {
        device: Device::ZR,
        code: 0xB0,
        symbol: *b"ZR",
        kind: Kind::Word,
        notation: Notation::Hexadecimal,
    },
    Row {
        device: Device::W,
        code: 0xB4,
        symbol: *b"W*",
        kind: Kind::Word,
        notation: Notation::Hexadecimal,
    },
    Row {
        device: Device::TS,
        code: 0xC1,
        symbol: *b"TS",
        kind: Kind::Bit,
        notation: Notation::Decimal,
    },
    Row {
        device: Device::TN,
        code: 0xC2,
        symbol: *b"TN",
        kind: Kind::Word,
        notation: Notation::Decimal,
    },
];

impl Device {
    // The device's row of the table.
    pub fn row(self) -> Row
        ensures { result ≡ row_of self }
    {
        DEVICES[self.place()]
    }

    pub fn kind(self) -> Kind
        ensures { result ≡ kind_of self }
    {
        self.row().kind
    }

    pub fn notation(self) -> Notation
        ensures { result ≡ notation_of self }
    {
        self.row().notation
    }

    pub fn code(self) -> u8
        ensures { result ≡ code_of self }
    {
        self.row().code
    }

    pub fn symbol(self) -> [u8; 2]
        ensures { result ≡ symbol_of self }
    {
        self.row().symbol
    }
}

// Whether two characters are the two that are looked for. A pair is compared as one number, so that a row of the search costs one comparison.
fn is_pair(one: u8, other: u8, first: u8, second: u8) -> bool
    ensures { result ≡ (one == first && other == second) }
{
    u16::from_le_bytes([one, other]) == u16::from_le_bytes([first, second])
}

impl Row {
    fn has_code(&self, code: u8) -> bool
        ensures { result ≡ has_code code self.now }
    {
        self.code == code
    }

    fn has_symbol(&self, first: u8, second: u8) -> bool
        ensures { result ≡ has_symbol first second self.now }
    {
        is_pair(self.symbol[0], self.symbol[1], first, second)
    }
}

// The device with this code; none exactly when no device has it.
pub fn by_code(code: u8) -> Option<Device>
    ensures value { result ≡ device_by_code code }
    ensures found { MatchOption result ((d : Device) → code_of d ≢ code) (λ d. code_of d ≡ code) }
{
    DEVICES
        .iter()
        .find(|row| row.has_code(code))
        .map(|row| row.device)
}

// The device with this symbol of two characters; none exactly when no device has it.
// It differs from the search by code in the test alone; one search with the test as a parameter would be as long as the chain.
pub fn by_symbol(first: u8, second: u8) -> Option<Device>
    ensures value { result ≡ device_by_symbol first second }
    ensures found { MatchOption result ((d : Device) → symbol_of d ≢ first ∷ second ∷ []) (λ d. symbol_of d ≡ first ∷ second ∷ []) }
{
    DEVICES
        .iter()
        .find(|row| row.has_symbol(first, second))
        .map(|row| row.device)
}
