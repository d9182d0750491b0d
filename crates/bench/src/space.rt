// A reply space as it is printed.
ghost use Rattle.std.specs.Prelude.{◌≡◌, ℕ, ◌-◌, ◌<◌, ◌≤◌, length, ◌≢◌, slice_index};

use crate::hex::bytes_text;
use std::alloc::{AllocError, Global};

// Digits as they are printed: - where there are none.
pub fn or_dash(digits: &str) -> &str {
    if digits.is_empty() { "-" } else { digits }
}

// How many bytes of a reply space are left once those at its end that still hold EE are cut off.
pub fn kept(space: &[u8]) -> usize
    ensures within { result ≤ length space.now }
    ensures behind { (k : ℕ) → result ≤ k → k < length space.now → slice_index space.now k ≡ 0xEE }
    ensures last { 0 < result → slice_index space.now (result - 1) ≢ 0xEE }
{
    space
        .iter()
        .rposition(|byte| *byte != 0xEE)
        .map_or(0, |last| last + 1)
}

// The reply space in digits, without the bytes at its end that still hold EE.
pub fn space_text(heap: Global, space: &[u8]) -> Result<String, AllocError> {
    bytes_text(heap, &space[..kept(space)])
}
