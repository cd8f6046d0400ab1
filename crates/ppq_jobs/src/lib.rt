//! What the program does over queues beside scripts: agendas and graphs.
//!
//! [`run_agenda`] simulates the events of a record file, and [`run_graph`] sweeps over the edges of one. Both are to
//! their file what [`run_script`] is to a script: they open the queues over a device, do all that is asked, and
//! return how that ended and all blocks. The crates above reach [`run_script`] and the handlers through this one.
#![tactic(auto)]

mod agenda;
mod desk;
mod ends;
mod graph;
mod halves;
mod loading;
mod looking;
mod run;
mod sweep;

pub use agenda::Agenda;
pub use graph::Graph;
pub use ppq_engine::{End, Ended, run_script};
pub use ppq_event::{
    CountHandler, Ending, ForkHandler, Handler, Kind, MortalHandler, Outcome, RelayHandler, Triple,
};
pub use ppq_sweep::Pair;
pub use run::run_agenda;
pub use sweep::run_graph;
