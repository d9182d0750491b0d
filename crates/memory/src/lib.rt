// Device memories: what they are, by two traits, and where they keep their points.
#![tactic(auto)]

mod image;
mod layout;
mod lending;
mod lent;
mod locked;
mod locks;
mod packed;
mod refusal;
mod storage;
mod traits;

pub use image::{ByteImage, bytes_needed, image_fits};
pub use layout::{Form, extent_limit};
pub use lending::{set_image, set_packed};
pub use locked::Locked;
pub use locks::{Locks, Range};
pub use packed::{PackedTables, fits, words_needed};
pub use refusal::Refusal;
pub use traits::{ReadableMemory, WritableMemory};
