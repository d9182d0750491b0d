// Request and reply frames: the tests of a frame in their fixed order, its header, and the frame of a reply.
#![tactic(auto)]

mod fault;
mod header;
mod reading;

pub use fault::{Cause, Fault, Layer};
pub use header::{Form, Header, Route};
pub use reading::{read_frame, read_header};

mod writing;

pub use writing::{write_error_data, write_head};
