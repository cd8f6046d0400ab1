//! Storing runs, in buffers where the supply has enough and else in blocks of a device, and merging them.
//!
//! [`store_sorted`] stores a sorted list of records as one more run of a [`PassBody`], after Sanders'
//! sequence heap (Fast Priority Queues for Cached Memory, 2000) and its form with many workers by
//! Bingmann, Keh and Sanders (A Bulk-Parallel Priority Queue in External Memory with STXXL, 2015). It
//! takes buffers from a `Supply`. Where there are too few, the list is merged with all runs in buffers,
//! by a tree of minima, into one run in blocks. The slots for it are all drawn before the first block is
//! written, so a device that is full changes nothing. Where there is room for it, a group of blocks is
//! written by a thread while the next one is merged.
//!
//! [`merge_level`] merges 8 runs in blocks of one level into one of the next. As many slots as their
//! loaded blocks are drawn first; with those and with the slots of the blocks that are read it never wants
//! another one, so a device that is full changes nothing here either. Where there are workers enough, a
//! batch of blocks is written by a thread while the next one is merged.
//!
//! Whatever the answer, no slot and no buffer is lost or made.
#![tactic(auto)]

mod body;
mod buffers;
mod failure;
mod gathering;
mod groups;
mod level;
mod making;
mod merging;
mod new_array;
mod pair;
mod slots;
mod store;
mod turns;
mod writing;

pub use body::PassBody;
pub use failure::latch;
pub use level::merge_level;
pub use pair::merge_pair;
pub use ppq_counts::Counts;
pub use store::{store_buffers, store_sorted};
