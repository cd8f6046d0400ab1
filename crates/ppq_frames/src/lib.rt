//! Requests that come from a source, as frames.
//!
//! A frame is a number of 4 bytes, the highest byte first, which says how many bytes follow, and these
//! bytes. A request has at most 4,194,304 bytes. What a source gives is read into memory that is allocated
//! once (`Incoming`), and a request stands there, whole, until it is taken.
#![tactic(auto)]

mod buffer;
mod filled;
mod found;
mod incoming;
mod laws;

pub use filled::Filled;
pub use found::Found;
pub use incoming::Incoming;
pub use laws::frames_mean;
pub use ppq_outside::{Failed, Host, Memory, Source};
