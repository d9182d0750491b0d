// The fields of a frame or a reply, in the code that a call names.
ghost use Rattle.std.specs.Prelude.{◌^◌, ◌<◌, IfSome};

use crate::width::Width;
use crate::words::Point;
use device::Device;
use frame::{Fault, Header, read_header};
use wire::{Ascii, Binary, Code, device_at, number_at, read_digit};

// Bytes as they are sent in a code.
#[derive(Clone, Copy)]
pub struct Coded<'a> {
    pub code: Code,
    pub bytes: &'a [u8],
}

impl<'a> Coded<'a> {
    // The header of the frame that stands at the front.
    pub fn header(self, space: usize) -> Result<Header, Fault> {
        read_header(self.code, self.bytes, space)
    }

    // The number that a value of this width is sent as at `at`, and where the next field begins.
    pub fn number(self, at: usize, width: Width) -> Option<(u32, usize)> {
        if at > self.bytes.len() {
            return None;
        }
        let size = width.bytes();
        // A code is a type, and a closure that is generic in it cannot be passed: each field picks its reader here.
        let read = match self.code {
            Code::Binary => number_at::<Binary>(self.bytes, at, size),
            Code::Ascii => number_at::<Ascii>(self.bytes, at, size),
        };
        let (value, used) = read.ok()?;
        Some((value, at + used))
    }

    // The count of one byte at `at`, and where the next field begins.
    pub fn byte(self, at: usize) -> Option<(u8, usize)> {
        let (value, next) = self.number(at, Width::Bit)?;
        Some((u8::try_from(value).ok()?, next))
    }

    // The number of two bytes at `at`, and where the next field begins.
    // It differs from the one above in its type alone, and a parameter for the type would be longer than both.
    pub fn word(self, at: usize) -> Option<(u16, usize)> {
        let (value, next) = self.number(at, Width::Word)?;
        Some((u16::try_from(value).ok()?, next))
    }

    // The device field at `at`: the device, the number, and where the next field begins.
    pub fn device(self, at: usize) -> Option<(Device, u32, usize)>
        ensures { IfSome result (λ d. d.1 < 2 ^ 24) }
    {
        if at > self.bytes.len() {
            return None;
        }
        let read = match self.code {
            Code::Binary => device_at::<Binary>(self.bytes, at),
            Code::Ascii => device_at::<Ascii>(self.bytes, at),
        };
        let (device, number, used) = read.ok()?;
        Some((device, number, at + used))
    }

    // One of the bits that are sent from the front on: in binary a half byte, the first one high, in ASCII a digit.
    pub fn bit(self, index: usize) -> Option<u16> {
        match self.code {
            Code::Binary => {
                let byte = u16::from(*self.bytes.get(index / 2)?);
                Some(if index % 2 == 0 { byte / 16 } else { byte % 16 })
            }
            Code::Ascii => read_digit(*self.bytes.get(index)?).map(u16::from),
        }
    }

    // The bytes from `at` on.
    pub fn from(self, at: usize) -> Coded<'a> {
        Coded {
            code: self.code,
            bytes: rest(self.bytes, at),
        }
    }
}

// The bytes from `at` on.
pub fn rest(bytes: &[u8], at: usize) -> &[u8] {
    bytes.get(at..).unwrap_or_default()
}
