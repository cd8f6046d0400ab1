//! The program `ppq-serve` as a library: what it does, with the outside handed in.
//!
//! [`serve_words`] does all that the program does; [`serve_and_report`] reports its outcome too, and returns the
//! status with which the program ends.
#![tactic(auto)]

mod arguments;
mod context;
mod first;
mod kinds;
mod over;
mod program;
mod reports;
mod statuses;
mod top_call;

pub use arguments::words_of;
pub use ppq_answer::{Answered, End, Outcome, Source};
pub use ppq_words::{Host, OpenGate, Rack, Sink};
pub use program::{report_outcome, serve_and_report};
pub use reports::report;
pub use statuses::status;
pub use top_call::serve_words;
