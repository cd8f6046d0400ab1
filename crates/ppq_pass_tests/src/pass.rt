//! Worked examples of a pass's supply: a session of two slots and two buffers of two pairs each.
ghost use Rattle.std.specs.Prelude.{◌≡◌, ◌<◌, [], All, length};
ghost use Rattle.ppq_outside.specs.MemoryDevice.{slot_shown};
ghost use Rattle.ppq_pass.specs.ppq_row.Seats.{IsSeatOf as IsRowSeat};
ghost use Rattle.ppq_pass.specs.ppq_pool.Seats.{IsSeatOf as IsPoolSeat, count_of};
ghost use Rattle.ppq_pass.specs.ppq_array.Owner.{HasSlot};
ghost use Rattle.ppq_pass.specs.Passing.{new_pass};

use crate::seats::{Seats, end_shared, seats_of};
use ppq_outside::{MemSlot, Slot};
use ppq_pass::{
    Berth, Host, Pair, PassSupply, PoolBuf, PoolSeat, RowSeat, Shared, Supply, free_slot,
    give_buffer,
};
use std::alloc::Global;
use std::process::Abort;

// A supply over new seats.
fn supply_of<'a, H: Abort>(
    rt: &H,
    alloc: Global,
    shared: &'a Shared<MemSlot, Pair>,
    row_seat: RowSeat<Berth<MemSlot, Pair>>,
    pool_seat: PoolSeat<PoolBuf<Pair>>,
) -> PassSupply<'a, MemSlot, Pair>
    requires row { IsRowSeat shared.now.row row_seat }
    requires undrawn { row_seat.hand.places ≡ [] }
    requires two { length row_seat.hand.items ≡ 2 }
    requires bytes { All (HasSlot slot_shown 32) row_seat.hand.items }
    requires pool { IsPoolSeat shared.now.pool pool_seat }
    requires untaken { pool_seat.hand.numbers ≡ [] }
    requires shape { pool_seat.hand.shape ≡ 2 }
    requires buffers { count_of shared.now.pool ≡ 2 }
    ensures { result ≡ new_pass shared.now row_seat pool_seat 2 }
{
    let numbers = Vec::with_capacity(alloc, 2).expect(rt, "numbers");
    PassSupply::new(shared, row_seat, pool_seat, numbers, 2)
}

// Drops a pass, which in place would be proved anew in each test.
fn end(_pass: PassSupply<MemSlot, Pair>) {}

// The number of the slot that a pass draws. The slot is dropped.
fn drawn(pass: &mut PassSupply<MemSlot, Pair>) -> Option<u32> {
    Some(pass.draw_slot()?.number())
}

// The number of the slot that a pass draws and frees again.
fn freed(pass: &mut PassSupply<MemSlot, Pair>) -> Option<u32>
    ensures { pass.new.home ≡ pass.old.home }
{
    let slot = pass.draw_slot()?;
    let number = slot.number();
    free_slot(pass, slot);
    Some(number)
}

// Whether a pass draws slot 0 once more, then slot 1, and then finds none.
fn draws_two(pass: &mut PassSupply<MemSlot, Pair>) -> bool {
    let three = (drawn(pass), drawn(pass), drawn(pass));
    (three == (Some(0), Some(1), None)) & (pass.dry() == 1)
}

// Whether the slot that a pass frees is what it draws next, also after it was taken apart.
fn draws_its_stash(shared: &Shared<MemSlot, Pair>, pass: PassSupply<MemSlot, Pair>) -> bool
    requires { pass.home ≡ shared.now }
{
    let mut pass = pass;
    let twice = (freed(&mut pass), freed(&mut pass));
    let parts = pass.into_parts();
    let kept = (parts.stash.len() == 1) & (parts.dry == 0);
    let mut pass = PassSupply::from_parts(shared, parts);
    let two = draws_two(&mut pass);
    end(pass);
    kept & (twice == (Some(0), Some(0))) & two
}

// Whether a pass over new seats draws its stash first.
fn stash_is_drawn_first<H: Host + Abort>(rt: &H, alloc: Global) -> bool {
    let Seats {
        shared,
        row_seat,
        pool_seat,
    } = seats_of(rt, alloc, 2);
    let pass = supply_of(rt, alloc, &shared, row_seat, pool_seat);
    let is_first = draws_its_stash(&shared, pass);
    end_shared(shared);
    is_first
}

#[test]
fn a_stash_is_drawn_before_the_row_and_kept_between_calls(rt: HostRuntime) {
    assert!(rt; stash_is_drawn_first(&rt, rt.alloc()));
}

// Whether a pass takes two buffers and no third, and one again once it gave one.
fn takes_two<H: Abort>(rt: &H, pass: &mut PassSupply<MemSlot, Pair>) -> bool {
    let one = pass.take_buffer().expect(rt, "a buffer");
    let other = pass.take_buffer().expect(rt, "a buffer");
    let none = pass.take_buffer().is_none();
    let counts = (pass.scant() == 1) & (pass.dry() == 0);
    give_buffer(pass, one);
    none & counts & pass.take_buffer().is_some() & (other.block() == 2)
}

// Whether a pass over new seats takes two buffers.
fn both_are_taken<H: Host + Abort>(rt: &H, alloc: Global) -> bool {
    let Seats {
        shared,
        row_seat,
        pool_seat,
    } = seats_of(rt, alloc, 2);
    let mut pass = supply_of(rt, alloc, &shared, row_seat, pool_seat);
    let are_taken = takes_two(rt, &mut pass);
    end(pass);
    end_shared(shared);
    are_taken
}

#[test]
fn buffers_are_taken_until_all_are_held(rt: HostRuntime) {
    assert!(rt; both_are_taken(&rt, rt.alloc()));
}

// The number of the slot that a pass draws, and whether it takes a buffer.
fn drawn_and_taken(pass: &mut PassSupply<MemSlot, Pair>) -> (Option<u32>, bool) {
    (drawn(pass), pass.take_buffer().is_some())
}

// Whether each of two passes draws a slot and takes a buffer, and finds no more.
fn share_all(pass: &mut PassSupply<MemSlot, Pair>, other: &mut PassSupply<MemSlot, Pair>) -> bool {
    let one_each = (drawn_and_taken(pass), drawn_and_taken(other));
    let no_more = (drawn_and_taken(pass), drawn_and_taken(other));
    let counts = (pass.dry() == 1) & (other.scant() == 1);
    counts
        & (one_each == ((Some(0), true), (Some(1), true)))
        & (no_more == ((None, false), (None, false)))
}

// Two passes over the seats of one session, each with a share of both.
fn two_share<H: Host + Abort>(rt: &H, alloc: Global) {
    let Seats {
        shared,
        mut row_seat,
        mut pool_seat,
    } = seats_of(rt, alloc, 2);
    let other_row_seat = shared.row.split(&mut row_seat);
    let other_pool_seat = shared.pool.split(&mut pool_seat);
    let mut pass = supply_of(rt, alloc, &shared, row_seat, pool_seat);
    let mut other = supply_of(rt, alloc, &shared, other_row_seat, other_pool_seat);
    assert!(rt; share_all(&mut pass, &mut other));
    end(pass);
    end(other);
    end_shared(shared);
}

#[test]
fn two_passes_share_slots_and_buffers(rt: HostRuntime) {
    two_share(&rt, rt.alloc())
}
