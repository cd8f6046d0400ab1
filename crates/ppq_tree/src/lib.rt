//! The tree of minima: the smallest of a fixed number of leaves, each of which has a record or none.
//!
//! A tournament tree after Knuth (The Art of Computer Programming, volume 3): each
//! inner node is a match between its two children and knows the leaf that won. A leaf that changes
//! plays its matches again, one on each level; all leaves together play each match once. Each match is
//! counted by `Steps`: no match is played by a function that does not take them.
#![tactic(auto)]

mod apart;
mod climb;
mod heads;
mod matches;
mod min_tree;
mod steps;

pub use heads::Heads;
pub use min_tree::{MinTree, leaf_levels};
pub use ppq_record::{Listing, Lists, Memory, Pair, Record, record_laws, sort};
pub use steps::Steps;
