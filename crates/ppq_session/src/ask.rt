//! What the owner of a limit session asks.

/// An ask of the owner in a limit session: for the smallest record that is below the limit.
#[derive(Clone, Copy, Debug, PartialEq, Eq)]
pub enum Ask {
    /// The record stays.
    Top,
    /// The record is removed.
    Pop,
}
