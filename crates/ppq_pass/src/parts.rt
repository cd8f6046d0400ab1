//! What a pass keeps between its calls.

use crate::PoolBuf;
use ppq_extract::{Berth, BerthList, Slot};
use ppq_pool::{PoolSeat, Record};
use ppq_row::RowSeat;

/// What a pass keeps between its calls: its seats, its stash, and the numbers of the buffers that it
/// took from the pool.
#[derive(Drop)]
pub struct PassParts<S: Slot, R: Record> {
    /// The right to draw from the row.
    pub row_seat: RowSeat<Berth<S, R>>,
    /// Slots that were drawn and came back, the next one to be drawn first.
    pub stash: BerthList<S, R>,
    /// The right to take from the pool.
    pub pool_seat: PoolSeat<PoolBuf<R>>,
    /// The numbers of the buffers that are out, with room for those of all buffers of the pool.
    pub numbers: Vec<u32>,
    /// How many records a block has.
    pub block: u32,
    /// How many draws answered None.
    pub dry: u64,
    /// How many takes of a buffer answered None. Each looked at all buffers of the pool.
    pub scant: u64,
    /// How many buffers were out when a take last answered None.
    pub room_when_scant: u64,
}
