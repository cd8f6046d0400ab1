//! Histories of buffers, slots and pushed items, and a table that follows them.
//!
//! The passes of a session share a pool of buffers and a row of slots. What they do to them is a
//! list of events: a pass takes and gives buffers, draws and stores slots, and pushes items of its
//! own. This crate says which lists of events are legal, where each buffer and slot is after one,
//! and which events may change their order. Its contracts hold for every list of events; the pool,
//! the row and the sessions show that each of their steps is one of these events or none.
//!
//! [`State`] is the table of places: [`State::step`] takes in one event, or refuses it.
#![tactic(auto)]

mod event;
mod fault;
mod laws;
mod place;
mod pushed;
mod state;

pub use event::Event;
pub use fault::StepFault;
pub use laws::{buffer_laws, interleaving_laws, order_laws, slot_laws, step_laws};
pub use place::Place;
pub use ppq_record::{Memory, Pair, Record, record_laws};
pub use state::State;
