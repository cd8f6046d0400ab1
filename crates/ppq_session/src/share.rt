//! The free slots and the idle buffers of a supply, as a row and a pool.
ghost use Rattle.std.specs.Prelude.{◌≡◌, ◌+◌, [], length, IfOk, OnErr, vec_capacity};
ghost use Rattle.ppq_queue.specs.Slots.{with_slots, with_pool};
ghost use Rattle.ppq_session.specs.Shares.{bare, IsRoomFor, IsFirst, IsFirstRow, IsFirstPool};

use crate::slots::{put_buffers, put_slots, take_buffers, take_slots};
use ppq_pass::{
    Berth, Memory, OwnerLists, Pool, PoolBuf, PoolSeat, Record, Row, RowSeat, Shared, Slot,
};
use std::alloc::Global;

/// What passes share, with seats that have all shares.
#[derive(Drop)]
pub struct FirstSeats<S: Slot, R: Record> {
    /// The free slots and the idle buffers.
    pub shared: Shared<S, R>,
    /// The right to the row of the free slots.
    pub row_seat: RowSeat<Berth<S, R>>,
    /// The right to the pool of the idle buffers.
    pub pool_seat: PoolSeat<PoolBuf<R>>,
}

/// Makes a row of all free slots of a supply and a pool of all its idle buffers, by two empty lists that
/// have room for them. `Err` only if an allocation failed; the supply is as it was then.
pub fn share<S: Slot, R: Record>(
    alloc: Global,
    supply: &mut OwnerLists<S, R>,
    slots: Vec<Berth<S, R>>,
    buffers: Vec<PoolBuf<R>>,
) -> Result<FirstSeats<S, R>, Memory>
    requires slots { IsRoomFor (length supply.old.kept) slots.items (vec_capacity slots) }
    requires buffers { IsRoomFor supply.old.sure_buffers buffers.items (vec_capacity buffers) }
    ensures session { IfOk result (IsFirst S.shown R.WIDTH supply.old) }
    ensures bare { IfOk result (λ _. supply.new ≡ bare supply.old) }
    ensures back { OnErr result (supply.new ≡ supply.old) }
{
    let (row, row_seat) = make_row(alloc, supply, slots)?;
    match make_pool(alloc, supply, buffers) {
        Ok((pool, pool_seat)) => Ok(FirstSeats {
            shared: Shared { row, pool },
            row_seat,
            pool_seat,
        }),
        Err(memory) => {
            let slots = row.close(row_seat);
            put_slots(supply, slots);
            Err(memory)
        }
    }
}

// A row of all free slots of a supply.
fn make_row<S: Slot, R: Record>(
    alloc: Global,
    supply: &mut OwnerLists<S, R>,
    slots: Vec<Berth<S, R>>,
) -> Result<(Row<Berth<S, R>>, RowSeat<Berth<S, R>>), Memory>
    requires { IsRoomFor (length supply.old.kept) slots.items (vec_capacity slots) }
    ensures made { IfOk result (λ r. IsFirstRow S.shown R.WIDTH supply.old.kept supply.old.block r.0 r.1) }
    ensures out { IfOk result (λ _. supply.new ≡ with_slots supply.old [] (supply.old.slot_room + length supply.old.kept)) }
    ensures back { OnErr result (supply.new ≡ supply.old) }
{
    let mut slots = slots;
    take_slots(supply, &mut slots);
    match Row::new(alloc, slots) {
        Ok(made) => Ok(made),
        Err((slots, memory)) => {
            put_slots(supply, slots);
            Err(memory)
        }
    }
}

// A pool of all idle buffers of a supply.
fn make_pool<S: Slot, R: Record>(
    alloc: Global,
    supply: &mut OwnerLists<S, R>,
    buffers: Vec<PoolBuf<R>>,
) -> Result<(Pool<PoolBuf<R>>, PoolSeat<PoolBuf<R>>), Memory>
    requires { IsRoomFor supply.old.sure_buffers buffers.items (vec_capacity buffers) }
    ensures made { IfOk result (λ r. IsFirstPool supply.old.sure_buffers supply.old.block r.0 r.1) }
    ensures out { IfOk result (λ _. supply.new ≡ with_pool supply.old 0 (supply.old.buffer_room + supply.old.sure_buffers)) }
    ensures back { OnErr result (supply.new ≡ supply.old) }
{
    let mut buffers = buffers;
    take_buffers(supply, &mut buffers);
    match Pool::new(alloc, buffers) {
        Ok(made) => Ok(made),
        Err((buffers, memory)) => {
            put_buffers(supply, buffers);
            Err(memory)
        }
    }
}
