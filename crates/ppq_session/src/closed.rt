//! The parts of a queue after its session's row and pool were closed.

use ppq_pass::{
    Extract, InsertionHeap, MinTree, OwnerLists, PassBody, Record, Sizes, Slot, Sources,
};
use ppq_queue::Counts;

/// The parts of a queue after its session's row and pool were closed, while passes are put into it.
#[derive(Drop)]
pub struct Closed<S: Slot + Send + Sync, R: Record + Send + Sync> {
    /// The five numbers from which all sizes follow.
    pub sizes: Sizes,
    /// The heaps of the passes that were put in.
    pub heaps: Vec<InsertionHeap<R>>,
    /// The tree of the heaps' smallest records, which counts for nothing meanwhile.
    pub tree: MinTree<R>,
    /// The runs, with those of the passes that were put in, and the lanes with their buffers.
    pub body: PassBody<S, R>,
    /// The free slots and the idle buffers.
    pub supply: OwnerLists<S, R>,
    /// The records that are next, in order: those that a front has left, and none in a bulk session.
    pub extract: Extract<R>,
    /// What refills and merges need.
    pub sources: Sources<R>,
    /// How many records the queue had, and how many were accepted by the passes that were put in.
    pub count: u64,
    /// The greatest size that the queue had when the session began.
    pub peak: u64,
    /// Whether a limit session was begun.
    pub limited: bool,
    /// How many records the queue accepted, and how many stores of a full heap and sessions it began, with
    /// what the passes that were put in count.
    pub counts: Counts,
    /// The number of the slot a call of which failed, in a front or in one of those passes.
    pub failed: Option<u32>,
    /// The emptied list of the slots that came in.
    pub slots: Vec<S>,
}
