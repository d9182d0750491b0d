// The records of a sheet: behind the version byte, each a length of two bytes, the high one first, and then one frame.
use crate::asking::registers;
use crate::coded::{Coded, rest};
use std::alloc::{AllocError, Global};
use std::iter;
use wire::Code;

// The frame of the record that `rest` begins with, and what stands behind it. The reader of the crate below, which tests it too, is not public.
fn cut_record(rest: &[u8]) -> Option<(&[u8], &[u8])> {
    let [high, low, behind @ ..] = rest else {
        return None;
    };
    behind.split_at_checked(usize::from(u16::from_be_bytes([*high, *low])))
}

// The frames of the first records of a sheet, so many as there are up to `count`.
pub fn first_frames(heap: Global, sheet: &[u8], count: usize) -> Result<Vec<&[u8]>, AllocError> {
    let records = iter::successors(
        cut_record(rest(sheet, 1)),
        |(_, behind)| cut_record(*behind),
    );
    records.take(count).map(|(frame, _)| frame).collect(heap)
}

// The last of the frames that registers points to be monitored, if one does.
pub fn last_registration<'a>(code: Code, space: usize, frames: &[&'a [u8]]) -> Option<Coded<'a>> {
    frames
        .iter()
        .map(|bytes| Coded {
            code,
            bytes: *bytes,
        })
        .rev()
        .find(|frame| registers(*frame, space))
}
