// The bench server for callers in C and Rust: its functions over numbers and slices that the caller lends.
#![tactic(auto)]

mod arguments;
mod image;
mod packed;
mod points;
mod registered;
mod results;
mod serving;
