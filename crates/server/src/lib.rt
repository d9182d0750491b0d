// The server: takes one request frame at a time, carries it out on a device memory and writes one reply frame.
#![tactic(auto)]

mod answer;
mod points;
mod registering;
mod registration;
mod reply;
mod serve;
mod server;
mod setting;
mod settings;
mod showing;
mod storing;
mod window;

pub use answer::Answer;
pub use registering::Registering;
pub use registration::{Access, Registration};
pub use serve::take_frame;
pub use server::Server;
pub use setting::set_point;
pub use settings::Settings;
pub use window::Window;
