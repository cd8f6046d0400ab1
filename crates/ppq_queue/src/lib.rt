//! The queue of one owner, which goes on where its records outgrow memory: insertion heaps, an extract
//! buffer, sorted runs in buffers, and sorted runs in the blocks of a device.
//!
//! Each call is one change of one multiset. A push costs one sift into the first heap; every `H` pushes
//! that heap is sorted and stored as a run, and runs in blocks are merged by eights. A pop compares the
//! heaps' smallest record with the first of the extract buffer, which is refilled from all runs. A bulk pop
//! does so up to a block of records for each worker a call. A bulk session takes the queue apart
//! (`Queue::into_parts`), so that each worker fills a heap of its own. All memory is taken by
//! `Queue::open` and `Out::new`.
#![tactic(auto)]

mod berths;
mod bulk;
mod choice;
mod fault;
mod flush;
mod heaps;
mod laws;
mod limit_end;
mod out;
mod parts;
mod queue;
mod queue_parts;
mod refill;
mod settle;
mod store;
mod wanted;

pub use fault::OpenFault;
pub use laws::{blocks_are_used, writes_are_few};
pub use limit_end::LimitEnd;
pub use out::Out;
pub use ppq_extract::{
    Bench, Berth, BerthList, BlockBuf, BufList, ExternalArray, Extract, Gate, Host, InternalArray,
    Lanes, Library, OpenGate, OutsideFault, OwnerLists, Rack, Runs, Sizes, Slot, Sources,
    StoreFault, StoreFault as QueueFault, Supply, free_slot, give_buffer, size_of,
};
pub use ppq_heap::{Heaps, InsertionHeap, Listing, Lists, MinTree, Pair, Record, sort};
pub use ppq_spill::{Counts, PassBody, latch, store_sorted};
pub use queue::Queue;
pub use queue_parts::QueueParts;
