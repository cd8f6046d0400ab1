//! Taking the smallest records of stored runs.
//!
//! [`take_least`] merges the smallest records of runs in buffers and runs in blocks into a slice. It loads the
//! blocks that it needs, and its workers merge all that is safe at once. A refill of the extract buffer
//! and a merge of runs in blocks are made of it.
#![tactic(auto)]

mod bench;
mod crew;
mod edge;
mod fetch;
mod hint;
mod load;
mod loaded;
mod mark;
mod plan;
mod prefetch;
mod take;
mod turn;

pub use bench::Bench;
pub use crew::Crew;
pub use fetch::take_least;
pub use ppq_array::{
    Berth, BerthList, BlockBuf, BufList, ExternalArray, Gate, Host, InternalArray, LEAST_GROUP,
    LEAST_RECORDS_BESIDE, LEAST_WORKERS_BESIDE, Library, MOST_GROUP, Memory, OpenGate,
    OutsideFault, OwnerLists, Rack, Record, Runs, Slot, StoreFault, Supply, free_slot, give_buffer,
    record_laws,
};
pub use ppq_lane::{Job, JobKind, Lanes, overlap_mut, run_job, run_jobs};
pub use ppq_merge::{MinTree, size_of};
