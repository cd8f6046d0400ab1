//! The answer where the budget is too small.

/// The budget does not reach for the fixed part of a queue.
#[derive(Clone, Copy, Debug, PartialEq, Eq)]
pub struct TooSmall {
    /// The smallest budget that does, in records.
    pub need: u64,
}
