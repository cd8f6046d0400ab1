//! What lies in a slot of the table.

/// What lies in a slot of the table. A table of `n` items has `n + 1` slots.
#[derive(Drop)]
pub enum Place<T> {
    /// The item is with a seat.
    Empty,
    /// The item is at home.
    Item(T),
    /// The last slot: the list in which the items came, emptied, with room for all of them.
    Room(Vec<T>),
}
