//! One call of a slot.

use ppq_block::{BlockBuf, Record};
use ppq_outside::{Failed, Slot};

/// What a job asks of its slot.
#[derive(Clone, Copy, Debug, PartialEq, Eq)]
pub enum JobKind {
    /// To write the buffer's bytes.
    Write,
    /// To read the block into the buffer, which has `count` records then.
    Read {
        /// How many records the block holds.
        count: u32,
    },
}

/// One call of one slot with one buffer. Both are moved into it, and stay in it when it is done.
#[derive(Drop)]
pub struct Job<S: Slot, R: Record> {
    /// The slot that is called.
    pub slot: S,
    /// What is written, or read into.
    pub buf: BlockBuf<R>,
    /// What is asked.
    pub kind: JobKind,
    /// What the slot returned; None before the job is done.
    pub done: Option<Result<(), Failed>>,
}
