//! The program as a library: what `ppq` does, with the outside handed in.
//!
//! [`all_words`] does all that the program does; [`run_and_report`] reports its outcome too, and returns the status
//! with which the program ends. A script is executed by [`run_words`]; the command `sim` simulates an agenda with a
//! roster of handlers, and the command `sweep` sweeps over a graph.
//!
//! Every call returns, over any script, files and device: it waits for no other thread but those that it starts and
//! joins, and these are proved to return too.
#![tactic(auto)]

mod all;
mod arguments;
mod checked;
mod context;
mod device;
mod kinds;
mod laws;
mod lengths;
mod load;
mod plan;
mod program;
mod reading;
mod reports;
mod run;
mod sim;
mod statuses;
mod subcommand;
mod sweep;
mod top_call;
mod twice;
mod whole;

pub use all::all_words;
pub use arguments::words_of;
pub use checked::run_checked;
pub use laws::report_laws;
pub use ppq_checked::CheckedRack;
pub use ppq_edge::{DirLibrary, FileRack, NamedFiles, StdSink};
pub use ppq_jobs::{CountHandler, End, Ended, ForkHandler, Handler, MortalHandler, RelayHandler};
pub use ppq_words::{Host, OpenGate};
pub use program::{report_end, run_and_report};
pub use reports::report;
pub use statuses::status;
pub use top_call::run_words;
pub use twice::run_twice;
