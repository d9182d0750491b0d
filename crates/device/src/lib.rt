// The twelve devices of a bench, and the constant table that says how each is named on the wire.
#![tactic(auto)]

mod table;
mod types;

pub use table::{DEVICES, Row, by_code, by_symbol};
pub use types::{Device, Kind, Notation};
