//! A command and its line.
use crate::Command;

/// A command with the number of its line, from 1.
#[derive(Clone, Copy, Debug, PartialEq, Eq)]
pub struct Numbered<R> {
    /// The number of the line, from 1.
    pub line: u32,
    /// What the line asks for.
    pub command: Command<R>,
}
