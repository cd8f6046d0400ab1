//! A record for one pass.

/// A record, and the pass to which it is to be pushed.
#[derive(Clone, Copy)]
pub struct Line<R> {
    /// The number of the pass, from 0.
    pub pass: u32,
    /// The record.
    pub record: R,
}
