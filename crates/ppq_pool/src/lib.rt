//! A pool of items that many threads take from and give back to, with no lock.
//!
//! Each item has a number, a word and a place. The word is 0 while the item lies in its place, and
//! 1 while a seat holds it. [`Pool::take`] exchanges the words for 1, one after another, until it
//! finds a 0; [`Pool::give`] puts the item back and exchanges its word for 0. Neither waits for
//! another thread.
//!
//! What a thread may do it does by a seat, a token of no bytes. One rule (`specs/Rule`) ties the
//! words, the places and what all seats know; it holds between any two steps of any threads, and
//! the lemmas of `proofs/Steps` say so of each kind of step. It has a part on histories: the words
//! and the seats show one legal history of `ppq_core`, in which each seat is a pass and has just the
//! moves that it made. The history is the takes and gives of a log, in which also each look stands
//! that found an item held.
#![tactic(auto)]

mod hand;
mod laws;
mod plays;
mod pool;
mod rule;
mod seat;
mod shaped;

pub use hand::{Hand, Move};
pub use laws::{looks_are_true, steps_are_events};
pub use pool::Pool;
pub use ppq_core::{Memory, Pair, Record, interleaving_laws, record_laws, slot_laws};
pub use seat::PoolSeat;
pub use shaped::Shaped;
