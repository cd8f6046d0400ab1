//! Records of a fixed width, their order, and multisets and fronts of records.
//!
//! A record is a small value with bytes and a total order. A multiset is a list of records of which
//! only the counts matter; its front of size `k` is the one ascending list of its smallest `k`
//! records. Everything that the queue promises is said in these words.
#![tactic(auto)]

mod bag;
mod bytes;
mod choice;
mod down;
mod fields;
mod least;
mod listing;
mod lists;
mod memory;
mod pair;
mod record;
mod triple;

pub use bag::{one_front, sort};
pub use bytes::{take_at, taken_back};
pub use down::Down;
pub use fields::{Fields, fields_laws};
pub use least::is_least;
pub use listing::Listing;
pub use lists::Lists;
pub use memory::Memory;
pub use pair::{Pair, pair_order};
pub use record::{Record, record_laws};
pub use triple::Triple;
