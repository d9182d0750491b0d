// Sheets of recorded requests, carried out one after the other in a calibration window.
#![tactic(auto)]

mod record;
mod run;

pub use run::{Reason, RunEnd, run_sheet};
