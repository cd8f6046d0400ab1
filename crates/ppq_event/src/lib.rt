//! Event simulation: timed events wait in a queue, and the handlers of a roster answer them.
//!
//! [`simulate`] takes round after round: the events of the smallest time, at most a block for each worker. The
//! workers let the handlers answer them beside each other, then the lines of the round are written in the order of
//! the events, and the events that follow are pushed. What is written is the journal of the agenda machine of
//! `ppq_handler`, which answers one event after the other: the same for every number of workers.
//!
//! All memory is taken by [`Round::new`]. The rule of a run is in `docs/simulation.md`.
#![tactic(auto)]

mod clock;
mod fault;
mod journal;
mod line;
mod lines;
mod nowhere;
mod push;
mod round;
mod rounds;
mod simulation;
mod step;
mod take;
mod turn;

pub use fault::SimFault;
pub use ppq_handler::{
    CountHandler, Ending, ForkHandler, Handler, Kind, MortalHandler, Outcome, RelayHandler, Triple,
};
pub use ppq_queue::{Gate, Host, Out, Queue, Sizes, Slot, StoreFault as QueueFault};
pub use round::Round;
pub use simulation::simulate;
