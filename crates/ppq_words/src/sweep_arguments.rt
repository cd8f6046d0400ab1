//! The arguments of the command `sweep`.
use crate::GivenSizes;

/// What the words of the command `sweep` say. The names are borrowed from the words.
#[derive(Clone, Copy, Debug, PartialEq, Eq)]
pub struct SweepArguments<'a> {
    /// The name of the file of edges. It is not empty and does not begin with `-`.
    pub edges: &'a str,
    /// The name of the device. It is not empty and does not begin with `-`.
    pub device: &'a str,
    /// The sizes that the two queues of a sweep share, as they are given.
    pub given: GivenSizes,
    /// The value of `--nodes`, at most 4,294,967,296.
    pub nodes: u64,
}
