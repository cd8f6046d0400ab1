//! Hints: which of some arrays has the block that is to be loaded next.
//!
//! Each array tells the minimum of its first block that is not loaded, or that it has none. [`Hints`] keeps
//! them in a tree of minima, so the array with the smallest of them is at hand without a look at all arrays.
#![tactic(auto)]

mod hints;

pub use hints::Hints;
pub use ppq_tree::{
    Heads, Listing, Lists, Memory, MinTree, Pair, Record, Steps, leaf_levels, record_laws, sort,
};
