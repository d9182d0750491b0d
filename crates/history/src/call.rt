// The calls of a history, and their outcomes.
use device::Device;
use memory::Refusal;
use server::Answer;
use wire::Code;

// A call to a server. At most one calibration window is open at a time.
#[derive(Clone, Copy)]
pub enum Call<'a> {
    // takes the frame at the front of `bytes`; `space` is the reply space as it is before
    Frame {
        code: Code,
        bytes: &'a [u8],
        space: &'a [u8],
    },
    // the bench gives a point a value, whatever the write flag is
    Set {
        device: Device,
        number: u32,
        value: u16,
    },
    // opens a calibration window; declined while one is open
    Open,
    // ends the calibration window; declined while none is open
    End,
}

// What came of a call.
#[derive(Drop)]
pub enum Outcome {
    // the answer, and the reply space as it is then
    Taken { answer: Answer, space: Vec<u8> },
    // what the memory answered to a value given by the bench
    Written(Result<(), Refusal>),
    // the write flag after an opening or an ending; none if it was declined
    Window(Option<bool>),
}
