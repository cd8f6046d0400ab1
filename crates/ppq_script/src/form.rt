//! The form of what a script prints.

/// The form in which each answer of a script is written.
#[derive(Clone, Copy, Debug, PartialEq, Eq)]
pub enum Form {
    /// A line of text.
    Text,
    /// A frame: how many bytes follow, as a number of four bytes, the highest first, and these bytes.
    Bytes,
}
