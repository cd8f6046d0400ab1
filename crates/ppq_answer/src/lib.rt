//! Answers requests over one queue, as long as they come from a source.
//!
//! [`serve`] opens the queue and answers; each request is read whole before any of it is executed, and its answer is
//! put before the next one is looked at. Everything is allocated before the first answer.
#![tactic(auto)]

mod answer;
mod ending;
mod halt;
mod opening;
mod outcome;
mod talk;
mod waiting;

pub use opening::serve;
pub use outcome::{Answered, Outcome};
pub use ppq_engine::End;
pub use ppq_frames::{Filled, Found, Incoming, Source};
pub use waiting::wait;
