//! A pass that was taken apart.

use ppq_pass::{BerthList, InsertionHeap, PassBody, PassParts, Record, Slot};
use std::snapshot::Snapshot;

/// What a pass brought to the end of its session. Its seats are joined.
#[derive(Drop)]
pub struct Brought<S: Slot, R: Record> {
    /// Its latest records.
    pub heap: InsertionHeap<R>,
    /// Its runs, and two idle buffers.
    pub body: PassBody<S, R>,
    /// Slots that it drew and did not use.
    pub stash: BerthList<S, R>,
    /// What it kept between its calls, as it was.
    pub kept: Snapshot<PassParts<S, R>>,
    /// How many records it had in the beginning.
    pub begun: u64,
    /// How many of its pushes answered Ok.
    pub accepted: u64,
    /// How many stores of its full heap it began.
    pub stores: u64,
    /// Whether a push of it answered `NoFreeBlock`.
    pub refused: bool,
    /// The number of the slot a call of which failed first.
    pub failed: Option<u32>,
}
