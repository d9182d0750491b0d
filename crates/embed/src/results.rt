// What the exports hand back, as plain numbers: records of C, which holds no enum.
ghost use Rattle.std.specs.Prelude.{◌≡◌};
ghost use Rattle.embed.specs.Results.{status_of, size_of};
ghost use Rattle.embed.specs.Taking.{fault_number, fault_place, refusal};

use frame::Fault;
use memory::Refusal;
use server::Answer;

// The arguments are good; a frame may still have met a fault.
pub(crate) const DONE: u32 = 0;
// The point lies outside its device's extent.
pub(crate) const OUTSIDE: u32 = 11;
// The code is neither 0 nor 1.
pub(crate) const BAD_CODE: u32 = 101;
// There are not twelve extents.
pub(crate) const BAD_EXTENTS: u32 = 102;
// No device has this place.
pub(crate) const BAD_DEVICE: u32 = 103;
// The registration holds more than 192 accesses, or one of no device.
pub(crate) const BAD_REGISTRATION: u32 = 104;

// How many units a storage takes; 0 where the status is not 0.
#[repr(C)]
#[derive(Clone, Copy, PartialEq, Eq, Debug)]
pub struct BenchSize {
    pub units: usize,
    pub status: u32,
}

// What a point holds; 0 where the status is not 0.
#[repr(C)]
#[derive(Clone, Copy, PartialEq, Eq, Debug)]
pub struct BenchValue {
    pub status: u32,
    pub value: u32,
}

// What taking a frame came to: bytes taken of the frame, bytes of the reply, and the place and number of a fault; number 0 is no fault.
#[repr(C)]
#[derive(Clone, Copy, PartialEq, Eq, Debug)]
pub struct BenchAnswer {
    pub taken: usize,
    pub length: usize,
    pub place: usize,
    pub fault: u32,
    pub status: u32,
}

// The status of an answer that may be a refusal.
pub(crate) fn status_of(answer: Result<(), Refusal>) -> u32
    ensures { result ≡ status_of answer }
{
    match answer {
        Ok(()) => DONE,
        Err(refusal) => u32::from(refusal.number()),
    }
}

pub(crate) fn size_of(answer: Result<usize, Refusal>) -> BenchSize
    ensures { result ≡ size_of answer }
{
    match answer {
        Ok(units) => BenchSize {
            units,
            status: DONE,
        },
        Err(refusal) => BenchSize {
            units: 0,
            status: u32::from(refusal.number()),
        },
    }
}

impl BenchAnswer {
    // A call whose arguments are refused.
    pub(crate) fn refused(status: u32) -> BenchAnswer
        ensures { result ≡ refusal status }
    {
        BenchAnswer {
            taken: 0,
            length: 0,
            place: 0,
            fault: 0,
            status,
        }
    }

    // What taking a frame came to.
    pub(crate) fn of(answer: Answer) -> BenchAnswer
        ensures { result ≡ record { taken = answer.taken; length = answer.length; place = fault_place answer.fault; fault = fault_number answer.fault; status = 0 } }
    {
        let (fault, place) = number_and_place(answer.fault);
        BenchAnswer {
            taken: answer.taken,
            length: answer.length,
            place,
            fault,
            status: DONE,
        }
    }
}

// The number and the place of a fault; 0 and 0 where there is none.
fn number_and_place(fault: Option<Fault>) -> (u32, usize)
    ensures { result ≡ (fault_number fault, fault_place fault) }
{
    match fault {
        Some(fault) => (u32::from(fault.cause.number()), fault.place),
        None => (0, 0),
    }
}
