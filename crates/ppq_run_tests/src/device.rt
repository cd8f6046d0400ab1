//! Worked examples of slots in boxes, of supplies, and of runs in blocks. A number stands for the pair with
//! that key and value 0.
ghost use Rattle.std.specs.Prelude.{◌≡◌, ◌≤◌, [], length};
ghost use Rattle.ppq_outside.specs.Told.{next_count};

use crate::quiet_slot::{QuietSlot, quiet_berth, written_berth};
use ppq_array::{Berth, ExternalArray, OwnerLists, Runs, Supply, free_slot, give_buffer};
use ppq_block::BlockBuf;
use ppq_outside::{Host, Slot};
use ppq_record::Pair;
use ppq_testkit::pair;
use std::alloc::Global;
use std::process::Abort;

// The slot with this number in a box, which was written once; from then on each call of it fails, and runs make none.
fn stored<H: Host + Abort>(rt: &H, alloc: Global, number: u32) -> Berth<QuietSlot, Pair>
    ensures unread { next_count (⟦<QuietSlot as Slot>⟧.shown result.slot).reads ≤ (⟦<QuietSlot as Slot>⟧.shown result.slot).writes }
{
    written_berth(rt, alloc, number, &[0; 32], true)
}

// A buffer for two pairs with these two.
fn buffer_of(rt: &impl Abort, alloc: Global, one: u64, other: u64) -> BlockBuf<Pair>
    ensures two { length result.items ≡ 2 }
    ensures block { result.block ≡ 2 }
{
    let mut buf = BlockBuf::new(alloc, 2).expect(rt, "memory");
    buf.push(pair(one));
    buf.push(pair(other));
    buf
}

// A run of three blocks: two pairs from 10 on in block 4, two from 20 on in 5, and 30 in 6.
fn three_blocks<H: Host + Abort>(rt: &H, alloc: Global) -> ExternalArray<QuietSlot, Pair>
    ensures { result.lifted ≡ [] }
{
    let mut run = ExternalArray::empty(1);
    run.append(stored(rt, alloc, 4), pair(10), 2);
    run.append(stored(rt, alloc, 5), pair(20), 2);
    assert!(rt; run.blocks() == 2 && run.len() == 4);
    run.append(stored(rt, alloc, 6), pair(30), 1);
    run
}

// Whether a run has three blocks, the first of them, which it lifts, is in slot 4, and the next one begins with 20. It
// is accepted as 10 and 15.
fn lifts_and_loads(rt: &impl Abort, alloc: Global, run: &mut ExternalArray<QuietSlot, Pair>) -> bool
    requires { run.old.lifted ≡ [] }
    ensures { run.new.lifted ≡ [] }
{
    assert!(rt; run.blocks() == 3);
    let (slot, count) = run.lift();
    assert!(rt; count == 2);
    let next = (run.next_to_lift() == Some(pair(20))) & (run.loaded() == 0);
    let buf = buffer_of(rt, alloc, 10, 15);
    assert!(rt; run.buffers() == 0);
    run.accept_block(buf);
    (slot.number() == 4) & next & (run.buffers() == 1)
}

// Whether so many loaded records are not above this key.
fn loads_up_to(run: &ExternalArray<QuietSlot, Pair>, key: u64, count: u64) -> bool {
    run.loaded_at_most(&pair(key)) == count
}

// Whether two records are loaded, 10 and 15.
fn loads_two(run: &ExternalArray<QuietSlot, Pair>) -> bool {
    if run.loaded() != 2 {
        return false;
    }
    let below = loads_up_to(run, 9, 0) & loads_up_to(run, 10, 1) & loads_up_to(run, 14, 1);
    below & loads_up_to(run, 15, 2) & loads_up_to(run, 99, 2) & (run.loaded_at(1) == pair(15))
}

// Consumes the two records that are loaded, and says whether one buffer is spent then.
fn spends_one(run: &mut ExternalArray<QuietSlot, Pair>) -> bool {
    if run.loaded() != 2 {
        return false;
    }
    run.consume(2);
    let left = (run.len() == 3) & (run.loaded() == 0);
    left & run.take_spent().is_some() & run.take_spent().is_none()
}

#[test]
fn blocks_are_lifted_in_order_and_loaded_one_by_one(rt: HostRuntime) {
    let mut run = three_blocks(&rt, rt.alloc());
    let sizes = (run.len() == 5) & (run.level() == 1) & (run.loaded() == 0);
    assert!(rt; sizes & (run.next_minimum() == Some(pair(10))));
    assert!(rt; lifts_and_loads(&rt, rt.alloc(), &mut run));
    let sizes = (run.len() == 5) & (run.blocks() == 2);
    assert!(rt; sizes & (run.next_minimum() == Some(pair(20))));
    assert!(rt; loads_two(&run) & spends_one(&mut run));
}

// The number of the slot that a run gives up.
fn given_up(run: &mut ExternalArray<QuietSlot, Pair>) -> Option<u32> {
    match run.give_up() {
        Some(berth) => Some(berth.into_slot().number()),
        None => None,
    }
}

#[test]
fn slots_are_given_up_from_the_last_block_on(rt: HostRuntime) {
    let mut run = three_blocks(&rt, rt.alloc());
    let three = (given_up(&mut run), given_up(&mut run), given_up(&mut run));
    assert!(rt; (three == (Some(6), Some(5), Some(4))) & given_up(&mut run).is_none());
    assert!(rt; (run.len() == 0) & (run.blocks() == 0) & run.next_to_lift().is_none());
}

// An owner of slots and buffers for two pairs each, with room for so many.
type Owner = OwnerLists<QuietSlot, Pair>;

// The number of the slot that an owner gives.
fn drawn(owner: &mut Owner) -> Option<u32> {
    match owner.draw_slot() {
        Some(slot) => Some(slot.number()),
        None => None,
    }
}

// Whether an owner gives slot 0, which has 32 bytes, and takes it back.
fn lends_first(owner: &mut Owner) -> bool {
    let Some(slot) = owner.draw_slot() else {
        return false;
    };
    let is_first = (slot.number() == 0) & (slot.size() == 32);
    free_slot(owner, slot);
    is_first
}

// Whether an owner was asked in vain for so many slots and so many buffers.
fn lacked(owner: &Owner, slots: u64, buffers: u64) -> bool {
    (owner.dry() == slots) & (owner.scant() == buffers)
}

#[test]
fn an_owner_gives_slots_in_order_and_takes_them_back_at_the_end(rt: HostRuntime) {
    let mut owner = Owner::new(2, 2, 1);
    free_slot(&mut owner, quiet_berth(&rt, rt.alloc(), 0, true));
    free_slot(&mut owner, quiet_berth(&rt, rt.alloc(), 1, true));
    assert!(rt; (owner.free_slots() == 2) & lends_first(&mut owner));
    assert!(rt; (drawn(&mut owner) == Some(1)) & (drawn(&mut owner) == Some(0)));
    assert!(rt; (owner.dry() == 0) & drawn(&mut owner).is_none() & lacked(&owner, 1, 0));
}

// How many records the buffer has that an owner gives.
fn taken(owner: &mut Owner) -> Option<u32> {
    match owner.take_buffer() {
        Some(buf) => Some(buf.len()),
        None => None,
    }
}

#[test]
fn an_owner_counts_the_buffers_that_it_could_not_give(rt: HostRuntime) {
    let mut owner = Owner::new(2, 0, 1);
    give_buffer(&mut owner, buffer_of(&rt, rt.alloc(), 1, 2));
    assert!(rt; (owner.idle_buffers() == 1) & (taken(&mut owner) == Some(2)));
    assert!(rt; taken(&mut owner).is_none() & taken(&mut owner).is_none());
    assert!(rt; lacked(&owner, 0, 2));
}

#[test]
fn new_runs_have_room_and_no_run(rt: HostRuntime) {
    let runs = Runs::<QuietSlot, Pair>::new(rt.alloc(), 3, 5).expect(&rt, "memory");
    let is_empty = (runs.internal.len() == 0) & (runs.external.len() == 0);
    assert!(rt; is_empty & (runs.internal.capacity() >= 3) & (runs.external.capacity() >= 5));
}
