// The frame of the last registration that was accepted: by it the values of a monitor are named.
use crate::coded::Coded;
use std::alloc::{AllocError, Global};
use wire::Code;

#[derive(Drop)]
pub struct Registered {
    code: Code,
    frame: Vec<u8>,
}

impl Registered {
    pub fn new(heap: Global, frame: Coded<'_>) -> Result<Registered, AllocError> {
        Ok(Registered {
            code: frame.code,
            frame: Vec::from_slice(heap, frame.bytes)?,
        })
    }

    pub fn coded(&self) -> Coded<'_> {
        Coded {
            code: self.code,
            bytes: self.frame.as_slice(),
        }
    }
}
