// Reads a request's data, field by field, and tests it over the memory that it is for.
#![tactic(auto)]

mod batch;
mod entries;
mod fields;
mod random;
mod reading;
mod spans;
mod types;

pub use entries::{access_at, bit_at, setting_at, word_at};
pub use reading::read_request;
pub use types::Request;
