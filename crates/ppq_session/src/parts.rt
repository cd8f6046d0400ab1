//! The parts of a queue while its heaps, free slots and idle buffers are out.

use crate::brought::Brought;
use ppq_pass::{
    Berth, Extract, InsertionHeap, MinTree, OwnerLists, PassBody, PoolBuf, PoolSeat, Record,
    RowSeat, Sizes, Slot, Sources,
};
use ppq_queue::Counts;

/// The parts of a queue while its heaps, free slots and idle buffers are out.
#[derive(Drop)]
pub struct BulkParts<S: Slot + Send + Sync, R: Record + Send + Sync> {
    /// The five numbers from which all sizes follow.
    pub sizes: Sizes,
    /// The emptied list of the heaps.
    pub heaps: Vec<InsertionHeap<R>>,
    /// The tree of the heaps' smallest records, which counts for nothing meanwhile.
    pub tree: MinTree<R>,
    /// The runs, and the lanes without two idle buffers for each pass.
    pub body: PassBody<S, R>,
    /// The lists of free slots and idle buffers: emptied at first, and what a front frees comes back to them.
    pub supply: OwnerLists<S, R>,
    /// The records of a front that are next, in order: none at first, and none in a bulk session.
    pub extract: Extract<R>,
    /// What refills and merges need.
    pub sources: Sources<R>,
    /// How many records the queue had, less those that a front gave.
    pub count: u64,
    /// The greatest size so far, in records.
    pub peak: u64,
    /// Whether a limit session was begun.
    pub limited: bool,
    /// How many records the queue accepted, and how many stores of a full heap and sessions it began, this
    /// one too.
    pub counts: Counts,
    /// The emptied list of the slots that came in.
    pub slots: Vec<S>,
    /// The right to the row of the free slots.
    pub row_seat: RowSeat<Berth<S, R>>,
    /// The right to the pool of the idle buffers.
    pub pool_seat: PoolSeat<PoolBuf<R>>,
    /// An empty list with room for what the passes bring.
    pub brought: Vec<Brought<S, R>>,
}
