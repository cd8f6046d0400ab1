//! What a worker passes before its piece of work.

/// A worker enters it before its piece of a merge and before its pass's part of a batch, so that a
/// test can set the order in which workers go on.
///
/// A type of no bytes, as [`OpenGate`], is a gate that holds nobody: workers without a piece enter it one
/// after the other on one thread. A gate that holds a worker until another one has come has bytes.
pub trait Gate: Sync {
    /// Comes back when this worker may go on. Workers are numbered from 0.
    fn enter(&self, worker: u32);
}

/// A gate that does nothing.
#[derive(Clone, Copy)]
pub struct OpenGate;

impl Gate for OpenGate {
    #[inline]
    fn enter(&self, _worker: u32) {}
}
