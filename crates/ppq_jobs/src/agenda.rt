//! What is simulated.

/// What is simulated: the events of a record file, up to a time and a number of events. The name is borrowed.
#[derive(Clone, Copy, Debug, PartialEq, Eq)]
pub struct Agenda<'a> {
    /// The name of the file, whose records are the events: triples of 24 bytes each.
    pub name: &'a str,
    /// How many bytes the file has.
    pub bytes: u64,
    /// The last time at which events are handled.
    pub until: u64,
    /// How many events are handled at the most.
    pub events: u64,
}
