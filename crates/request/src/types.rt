// A request that was read and passed every test. What it holds of the frame begins at `place`.
// The cases spell their fields out: a struct for a batch or for lists would be taken apart again by each clause and each call.
use device::Device;

#[derive(Clone, Copy)]
pub enum Request<'a> {
    ReadBits {
        device: Device,
        number: u32,
        points: usize,
    },
    ReadWords {
        device: Device,
        number: u32,
        points: usize,
    },
    WriteBits {
        device: Device,
        number: u32,
        points: usize,
        data: &'a [u8],
        place: usize,
    },
    WriteWords {
        device: Device,
        number: u32,
        points: usize,
        data: &'a [u8],
        place: usize,
    },
    ReadRandom {
        words: usize,
        doubles: usize,
        list: &'a [u8],
        place: usize,
    },
    Register {
        words: usize,
        doubles: usize,
        list: &'a [u8],
        place: usize,
    },
    Monitor,
    WriteRandomBits {
        count: usize,
        list: &'a [u8],
        place: usize,
    },
    WriteRandom {
        words: usize,
        doubles: usize,
        list: &'a [u8],
        place: usize,
    },
}
