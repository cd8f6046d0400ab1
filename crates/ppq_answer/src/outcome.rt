//! How a talk ends.
use ppq_engine::End;

/// How a talk ends.
#[derive(Clone, Copy, Debug, PartialEq, Eq)]
pub enum Outcome {
    /// As a script may end. `Done`: the source is at its end, between two requests. `ReadFault`: the source failed.
    Ended { end: End },
    /// The frame with this number is no request, is too long, or is cut off by the end of the source. The first frame,
    /// which names the records, has number 1.
    BadRequest { number: u64 },
}

/// How a talk ended, and the blocks that were made for it.
#[derive(Drop)]
pub struct Answered<S> {
    /// How it ended.
    pub outcome: Outcome,
    /// The blocks, each once.
    pub blocks: Vec<S>,
}
