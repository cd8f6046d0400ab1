//! The extract buffer of a queue: the smallest records of its stored runs, in order.
//!
//! An [`Extract`] is a list with a place in it. Records leave at its front; once it is empty, a refill
//! takes the smallest records of all runs into it. [`Sources`] has what refills need besides.
#![tactic(auto)]

mod emptied;
mod extract;
mod sources;
mod taking;

pub use extract::Extract;
pub use ppq_budget::{FAN, LEVELS, MOST_RUNS, Sizes};
pub use ppq_fetch::{
    Bench, Berth, BerthList, BlockBuf, BufList, ExternalArray, Gate, Host, InternalArray, Job,
    Lanes, Library, MOST_GROUP, OpenGate, OutsideFault, OwnerLists, Rack, Runs, Slot, StoreFault,
    Supply, free_slot, give_buffer, size_of,
};
pub use sources::Sources;
