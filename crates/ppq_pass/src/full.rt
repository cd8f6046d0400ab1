//! The answer of a heap that is full.

/// A heap has no room for one record more.
#[derive(Clone, Copy, Debug, PartialEq, Eq)]
pub struct Full;
