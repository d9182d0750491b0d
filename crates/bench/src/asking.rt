// What the request of a frame asks for.
use crate::coded::Coded;
use crate::lists::{List, Listed};
use crate::rows::Row;
use crate::width::Width;
use frame::{Fault, Header};

// What a request asks for.
#[derive(Clone, Copy)]
pub enum Ask {
    Read(Row),
    Write(Row),
    ReadList(List),
    WriteList(List),
    Register(List),
    Monitor,
    // a command that is not known, or data that cannot be read: a case and no Option, since that is told too
    Other,
}

// A frame whose header was read.
#[derive(Clone, Copy)]
pub struct Asking<'a> {
    pub frame: Coded<'a>,
    pub header: Header,
}

impl<'a> Asking<'a> {
    // Reads the header of a frame, for a reply space of so many bytes.
    pub fn read(frame: Coded<'a>, space: usize) -> Result<Asking<'a>, Fault> {
        let header = frame.header(space)?;
        Ok(Asking { frame, header })
    }

    // What the request asks for, by its command and subcommand.
    pub fn ask(self) -> Ask {
        self.read_ask().unwrap_or(Ask::Other)
    }

    fn read_ask(self) -> Option<Ask> {
        let frame = self.frame;
        let at = self.header.data_at;
        // Numbers, since a command that is not known is told as it came.
        match (self.header.command, self.header.subcommand) {
            (0x0401, 0x0000) => Some(Ask::Read(Row::read(frame, at, Width::Word)?)),
            (0x0401, 0x0001) => Some(Ask::Read(Row::read(frame, at, Width::Bit)?)),
            (0x1401, 0x0000) => Some(Ask::Write(Row::read(frame, at, Width::Word)?)),
            (0x1401, 0x0001) => Some(Ask::Write(Row::read(frame, at, Width::Bit)?)),
            (0x0403, 0x0000) => Some(Ask::ReadList(List::of_words(frame, at)?)),
            (0x0801, 0x0000) => Some(Ask::Register(List::of_words(frame, at)?)),
            (0x0802, 0x0000) => Some(Ask::Monitor),
            (0x1402, 0x0000) => Some(Ask::WriteList(List::of_words(frame, at)?)),
            (0x1402, 0x0001) => Some(Ask::WriteList(List::of_bits(frame, at)?)),
            _ => None,
        }
    }

    // A list of the request, in its frame.
    pub fn listed(self, list: List) -> Listed<'a> {
        Listed {
            frame: self.frame,
            list,
        }
    }
}

// Whether the frame registers points to be monitored, as far as its command says.
pub fn registers(frame: Coded<'_>, space: usize) -> bool {
    frame
        .header(space)
        .is_ok_and(|header| header.command == 0x0801)
}
