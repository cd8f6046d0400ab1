//! What a pass has when its session ends.

use crate::PassParts;
use ppq_extract::Slot;
use ppq_heap::InsertionHeap;
use ppq_pool::Record;
use ppq_spill::PassBody;

/// All that a pass has, for the end of its session.
#[derive(Drop)]
pub struct PassHeld<S: Slot, R: Record> {
    /// Its latest records.
    pub heap: InsertionHeap<R>,
    /// Its runs, and two idle buffers.
    pub body: PassBody<S, R>,
    /// Its seats, its stash, and the numbers of the buffers of its runs.
    pub parts: PassParts<S, R>,
    /// How many records it had in the beginning.
    pub begun: u64,
    /// How many of its pushes answered Ok.
    pub accepted: u64,
    /// Whether a push of it answered `NoFreeBlock`.
    pub refused: bool,
    /// The number of the slot a call of which failed first.
    pub failed: Option<u32>,
    /// How many stores of its full heap it began, whatever came of them.
    pub stores: u64,
}
