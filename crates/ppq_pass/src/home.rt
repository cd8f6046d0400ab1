//! What a pass's supply belongs to.

use crate::Shared;
use ppq_extract::{Berth, Slot};
use ppq_pool::Record;
use std::collections::LinkedList;

/// What a pass's supply belongs to: no call of it changes that. Clauses speak of it; no value of it is
/// made.
pub struct PassHome<S: Slot, R: Record> {
    /// The row and the pool.
    pub shared: Shared<S, R>,
    /// The slots as they were put into the row.
    pub items: LinkedList<Berth<S, R>>,
    /// How many of the row's shares the pass has.
    pub row_shares: u64,
    /// How many of the pool's shares the pass has.
    pub pool_shares: u64,
    /// Whether a draw had answered None before the supply was made. The end of the row is noted then.
    pub was_dry: bool,
    /// The places that the row's seat had before the supply was made.
    pub places: LinkedList<u32>,
    /// How many steps both seats had taken before the supply was made.
    pub steps: u64,
}
