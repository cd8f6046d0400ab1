//! The arguments of the command `sim`.
use crate::GivenSizes;

/// What the words of the command `sim` say. The names are borrowed from the words.
#[derive(Clone, Copy, Debug, PartialEq, Eq)]
pub struct SimArguments<'a> {
    /// The name of the agenda. It is not empty and does not begin with `-`.
    pub agenda: &'a str,
    /// The name of the device. It is not empty and does not begin with `-`.
    pub device: &'a str,
    /// The sizes of the queue as they are given.
    pub given: GivenSizes,
    /// The value of `--until`, which is any number of 64 bits.
    pub until: u64,
    /// The value of `--events`, at most 4,294,967,296.
    pub events: u64,
}
