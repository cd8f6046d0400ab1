//! A row of items of which each is drawn once, by one atomic step on a counter.
//!
//! Any number of threads draw, each with a seat of its own. A draw adds one to the counter, and the
//! number that it found is the place of the item that it gets. Nobody waits, nothing is locked, and
//! a draw does not allocate. Once all seats are joined, the last one closes the row and has the
//! items that were not drawn.
//!
//! What holds between any two steps of any threads is the rule in `specs/Rule`: each place below
//! the counter stands in the view of exactly one seat, and the counter cannot wrap
//! ([`counter_never_wraps`]). Counter and views show a history of draws, of which each step is one
//! event or none ([`steps_are_events`]).
//!
//! | Call | Steps on the counter |
//! |---|---|
//! | [`Row::draw`] | one; none where the seat has noted the end |
//! | [`Row::split`] | one load |
//! | [`Row::join`] | two loads |
//! | [`Row::new`], [`Row::close`] | none; each goes once over the items |
#![tactic(auto)]

mod hand;
mod laws;
mod plays;
mod row;
mod rule;
mod seat;

pub use hand::Hand;
pub use laws::{counter_never_wraps, steps_are_events};
pub use row::Row;
pub use seat::RowSeat;
