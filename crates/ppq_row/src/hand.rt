//! What a seat knows of its row.
use std::collections::LinkedList;

/// What a seat knows of its row: its view, in proofs alone. No value of it is made.
pub struct Hand<T> {
    /// How many of the row's `2^32` shares it has. A view with none is void.
    pub shares: u64,
    /// How many of its draws found the end of the row.
    pub nones: u64,
    /// Whether the row is known to be drawn to its end.
    pub noted: bool,
    /// The places that it drew, in order, and those of the seats that it took in.
    pub places: LinkedList<u64>,
    /// The items as they were put into the row.
    pub items: LinkedList<T>,
    /// How many views became void to make it: two for each seat that was joined, its own and the
    /// one in which it left the places that it had in hand.
    pub joins: u64,
}
