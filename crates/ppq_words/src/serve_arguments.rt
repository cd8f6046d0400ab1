//! The arguments of the command `serve`.
use crate::GivenSizes;

/// What the words of the command `serve` say. The name is borrowed from the words.
#[derive(Clone, Copy, Debug, PartialEq, Eq)]
pub struct ServeArguments<'a> {
    /// The name of the device. It is not empty and does not begin with `-`.
    pub device: &'a str,
    /// The sizes of the queue as they are given; how wide its records are is told by the first request.
    pub given: GivenSizes,
}
