// What can be wrong with a frame, a request or a sheet, and where.
ghost use Rattle.std.specs.Prelude.{◌≡◌};
ghost use Rattle.frame.specs.Faults.{number_of, layer_of, fault};

// Why a call was declined or a request refused. Each has its number.
#[derive(Clone, Copy, PartialEq, Eq, Debug)]
pub enum Cause {
    // the reply space is under 4,096 bytes
    NoReplySpace = 1,
    // the frame is not all there
    Incomplete = 2,
    // the subheader is neither that of a 3E nor that of a 4E request
    BadSubheader = 3,
    // a character in the header is no digit
    BadDigit = 4,
    // the zero word of a 4E frame is not zero
    NonZero = 5,
    // the length is out of range
    BadLength = 6,
    // a sheet that does not begin with its version byte
    NoVersion = 7,
    // a record of a sheet that is cut off, or that has bytes after its frame
    BadRecord = 8,
    // a write while the write flag is off
    WriteOff = 0x0055,
    // a character in the data is no digit
    DataDigit = 0xC050,
    // the points of a batch in bits are out of range
    BitCount = 0xC051,
    // the points of a batch in words are out of range
    WordCount = 0xC052,
    // the count of random bits is out of range
    RandomBitCount = 0xC053,
    // the counts of random words and double words are out of range
    RandomCount = 0xC054,
    // points outside the extent
    OutsideExtent = 0xC056,
    // a command that is not known with its subcommand
    UnknownCommand = 0xC059,
    // a device code or symbol that is not known
    UnknownDevice = 0xC05B,
    // a word device where a bit device is wanted
    WrongKind = 0xC05C,
    // a monitor request with nothing registered
    NotRegistered = 0xC05D,
    // a point that is closed to writing
    ClosedPoint = 0xC05F,
    // a bit value other than 0 and 1, or a filling other than 0
    BadValue = 0xC060,
    // the data end too early, or too late
    BadSize = 0xC061,
}

// The part of the server that found the fault.
#[derive(Clone, Copy, PartialEq, Eq, Debug)]
pub enum Layer {
    Frame,
    Sheet,
    Device,
    Request,
}

// A cause, and the place that it was found at, counted from 0: in the sheet for a cause of the sheet's layer, else in the frame.
#[derive(Clone, Copy, PartialEq, Eq, Debug)]
pub struct Fault {
    pub cause: Cause,
    pub place: usize,
}

impl Cause {
    // Its number: 1 to 6 for a frame that is not taken up, 7 and 8 for a sheet, else the end code of the reply.
    pub fn number(self) -> u16
        ensures { result ≡ number_of self }
    {
        self as u16
    }

    // The layer that finds it.
    pub fn layer(self) -> Layer
        ensures { result ≡ layer_of self }
    {
        match self {
            Cause::NoReplySpace
            | Cause::Incomplete
            | Cause::BadSubheader
            | Cause::BadDigit
            | Cause::NonZero
            | Cause::BadLength => Layer::Frame,
            Cause::NoVersion | Cause::BadRecord => Layer::Sheet,
            Cause::OutsideExtent | Cause::UnknownDevice | Cause::WrongKind | Cause::ClosedPoint =>
                Layer::Device,
            _ => Layer::Request,
        }
    }

    // The fault of this cause at a place.
    pub fn at(self, place: usize) -> Fault
        ensures { result ≡ fault self place }
    {
        Fault { cause: self, place }
    }
}

impl Fault {
    pub fn layer(self) -> Layer
        ensures { result ≡ layer_of self.cause }
    {
        self.cause.layer()
    }
}
