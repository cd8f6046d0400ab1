//! The parts of a queue, for whoever works on them outside of it.
use ppq_extract::{Extract, OwnerLists, Sizes, Slot, Sources};
use ppq_heap::{Heaps, Record};
use ppq_spill::{Counts, PassBody};

/// All parts of a queue, as `Queue::into_parts` hands them over and `Queue::from_parts` takes them back.
///
/// It is there for sessions, which give each heap to a worker of its own. What of these parts makes
/// a queue is the word `IsWhole` of contracts, and what that queue shows is `holding_of`.
#[derive(Drop)]
pub struct QueueParts<S: Slot + Send + Sync, R: Record + Send + Sync> {
    /// The five numbers from which all sizes follow.
    pub sizes: Sizes,
    /// The latest records: a heap for each worker.
    pub heaps: Heaps<R>,
    /// The runs, and the buffers that blocks are written from and read into.
    pub body: PassBody<S, R>,
    /// The free slots, and the buffers that no run uses.
    pub supply: OwnerLists<S, R>,
    /// The smallest records of the runs, as they were when it was last refilled.
    pub extract: Extract<R>,
    /// What refills and merges need.
    pub sources: Sources<R>,
    /// How many records there are.
    pub count: u64,
    /// The greatest size so far, in records.
    pub peak: u64,
    /// The block that failed first; from then on the queue is stopped.
    pub failed: Option<u32>,
    /// Whether a limit session was begun.
    pub limited: bool,
    /// How many records were accepted, how many stores of a full heap were begun, and how many sessions.
    pub counts: Counts,
    /// The emptied list of the slots that came in.
    pub slots: Vec<S>,
}
