//! An array that is being made.

use ppq_fetch::{BerthList, ExternalArray, Record, Slot};

// An array that is being made, with slots for its next blocks.
#[derive(Drop)]
pub(crate) struct NewArray<S: Slot, R: Record> {
    // The array, with the blocks that were written so far.
    pub(crate) made: ExternalArray<S, R>,
    // Slots that are drawn already, for blocks that are still to be written.
    pub(crate) berths: BerthList<S, R>,
}
