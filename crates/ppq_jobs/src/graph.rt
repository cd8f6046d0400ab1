//! What is swept.

/// What is swept: the edges of a record file, between so many nodes. The name is borrowed.
#[derive(Clone, Copy, Debug, PartialEq, Eq)]
pub struct Graph<'a> {
    /// The name of the file, whose records are the edges: pairs of 16 bytes each.
    pub name: &'a str,
    /// How many bytes the file has.
    pub bytes: u64,
    /// How many nodes there are: each edge leads from its key to its value, which is greater and below this.
    pub nodes: u64,
}
