// Numbers and device fields on the wire, in binary and in ASCII.
#![tactic(auto)]

mod ascii;
mod binary;
mod code;
mod digits;
mod series;
mod standing;

pub use ascii::Ascii;
pub use binary::Binary;
pub use code::{Code, FieldFault, WireCode};
pub use digits::{digit, hex_char, read_digit};
pub use series::{Number, write_series};
pub use standing::{device_at, number_at};
