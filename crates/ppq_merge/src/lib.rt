//! Merging of sorted runs, by one worker or by several.
//!
//! Several workers merge the smallest records of the runs in pieces: the runs are cut at ranks that
//! part the records evenly (`ppq_split`), and each worker merges what lies between two neighbouring
//! cuts into its own part of the result, with a tree of minima of its own (`ppq_tree`). So the result
//! is the same for every number of workers. This is the multiway merge of Bingmann, Keh and Sanders
//! (A Bulk-Parallel Priority Queue in External Memory with STXXL, 2015).
#![tactic(auto)]

mod alone;
mod bench;
mod crew;
mod fronts;
mod halves;
mod idle;
mod merge;
mod plan;
mod seat;
mod section;
mod team;

pub use bench::{Bench, merge_workers};
pub use merge::merge_into;
pub use ppq_split::size_of;
pub use ppq_tree::MinTree;
