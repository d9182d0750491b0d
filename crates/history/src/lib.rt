// Histories of calls: frames, values set by the bench, and calibration windows, carried out one after the other.
#![tactic(auto)]

mod both;
mod call;
mod live;
mod replaying;
mod windows;

pub use both::{Both, replay_both};
pub use call::{Call, Outcome};
pub use replaying::{Replayed, replay};
