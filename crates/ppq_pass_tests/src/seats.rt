//! A session of pairs by hand: slots in memory, and two buffers, of two pairs each.
ghost use Rattle.std.specs.Prelude.{◌≡◌, ◌<◌, [], All, length};
ghost use Rattle.ppq_outside.specs.MemoryDevice.{slot_shown};
ghost use Rattle.ppq_pass.specs.ppq_table.Sums.{all_shares};
ghost use Rattle.ppq_pass.specs.ppq_row.Seats.{IsSeatOf as IsRowSeat};
ghost use Rattle.ppq_pass.specs.ppq_pool.Seats.{IsSeatOf as IsPoolSeat, count_of};
ghost use Rattle.ppq_pass.specs.ppq_array.Owner.{HasSlot};

use ppq_block::BlockBuf;
use ppq_outside::{MemRack, MemSlot, Rack};
use ppq_pass::{Berth, Host, Pair, Pool, PoolBuf, PoolSeat, Row, RowSeat, Shared};
use std::alloc::Global;
use std::process::Abort;

// What is shared, and the first seats of row and pool.
pub struct Seats {
    pub shared: Shared<MemSlot, Pair>,
    pub row_seat: RowSeat<Berth<MemSlot, Pair>>,
    pub pool_seat: PoolSeat<PoolBuf<Pair>>,
}

// Drops what is shared, which in place would be proved anew in each test.
pub fn end_shared(_shared: Shared<MemSlot, Pair>) {}

// So many slots, in boxes, with the numbers from 0 on.
fn berths<H: Host + Abort>(rt: &H, alloc: Global, count: u32) -> Vec<Berth<MemSlot, Pair>>
    ensures count { length result.items ≡ count }
    ensures bytes { All (HasSlot slot_shown 32) result.items }
{
    let mut rack = MemRack::new();
    let mut berths = Vec::new(alloc);
    for number in 0..count {
        let slot = rack
            .block(rt, alloc, "device", number, 32)
            .expect(rt, "a block");
        let berth = match Berth::new(alloc, slot) {
            Ok(berth) => berth,
            Err(_) => panic!(rt; "no box"),
        };
        berths.push(berth).expect(rt, "room in the list");
    }
    berths
}

// An empty buffer.
fn buffer<H: Host + Abort>(rt: &H, alloc: Global) -> PoolBuf<Pair>
    ensures { result.buf.block ≡ 2 }
{
    PoolBuf {
        buf: BlockBuf::new(alloc, 2).expect(rt, "a buffer"),
    }
}

// A session of so many slots.
pub fn seats_of<H: Host + Abort>(rt: &H, alloc: Global, slots: u32) -> Seats
    ensures row { IsRowSeat result.shared.row result.row_seat }
    ensures undrawn { result.row_seat.hand.places ≡ [] }
    ensures count { length result.row_seat.hand.items ≡ slots }
    ensures bytes { All (HasSlot slot_shown 32) result.row_seat.hand.items }
    ensures row_shares { result.row_seat.hand.shares ≡ all_shares }
    ensures pool { IsPoolSeat result.shared.pool result.pool_seat }
    ensures untaken { result.pool_seat.hand.numbers ≡ [] }
    ensures shape { result.pool_seat.hand.shape ≡ 2 }
    ensures buffers { count_of result.shared.pool ≡ 2 }
    ensures pool_shares { result.pool_seat.hand.shares ≡ all_shares }
{
    let two = Vec::from_array(alloc, [buffer(rt, alloc), buffer(rt, alloc)]);
    let (row, row_seat) = match Row::new(alloc, berths(rt, alloc, slots)) {
        Ok(new) => new,
        Err(_) => panic!(rt; "no row"),
    };
    let (pool, pool_seat) = match Pool::new(alloc, two.expect(rt, "two buffers")) {
        Ok(new) => new,
        Err(_) => panic!(rt; "no pool"),
    };
    Seats {
        shared: Shared { row, pool },
        row_seat,
        pool_seat,
    }
}
