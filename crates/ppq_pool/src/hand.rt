//! What a seat knows of its pool.

use std::collections::LinkedList;

/// What a seat did to an item, or found.
pub enum Move {
    /// It took the item with this number.
    Took(u64),
    /// It gave back the item with this number.
    Gave(u64),
    /// It looked at the item with this number, and found it held.
    Saw(u64),
}

/// What a seat knows of its pool. Clauses speak of it; no value of it is made.
pub struct Hand<T> {
    /// How many of the pool's `2^32` shares it has.
    pub shares: u64,
    /// The shape of the pool's items.
    pub shape: u64,
    /// The numbers of the items that it holds.
    pub numbers: LinkedList<u64>,
    /// The items that it put in, each with its number. Taking an item ends what it knows of that
    /// number.
    pub put: LinkedList<(u64, T)>,
    /// What it took and gave, the newest first, with what the seats that joined it took and gave.
    pub moves: LinkedList<Move>,
    /// What it took, gave and found held itself, the newest first.
    pub trail: LinkedList<Move>,
    /// When it made each move on its trail: how many moves all seats had made before. The newest
    /// first.
    pub moments: LinkedList<u64>,
    /// How many seats were joined, in all, to make it.
    pub joins: u64,
    /// The item whose place it has in hand, within a call.
    pub in_hand: Option<u64>,
}
