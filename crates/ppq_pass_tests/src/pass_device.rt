//! Worked examples of two passes over four slots in memory and two buffers, of two pairs each, with heaps of
//! two pairs. A number stands for the pair with that key and value 0.
ghost use Rattle.std.specs.Prelude.{◌≡◌, ◌<◌, [], All, length};
ghost use Rattle.ppq_outside.specs.MemoryDevice.{slot_shown};
ghost use Rattle.ppq_pass.specs.ppq_budget.Sizes.{numbers};
ghost use Rattle.ppq_pass.specs.ppq_pool.Seats.{count_of};
ghost use Rattle.ppq_pass.specs.ppq_array.Owner.{HasSlot};
ghost use Rattle.ppq_pass.specs.Passed.{IsOf};

use crate::seats::{Seats, end_shared, seats_of};
use ppq_outside::MemSlot;
use ppq_pass::{
    Berth, ExternalArray, Full, Host, InsertionHeap, InternalArray, Pair, Pass, PassBody, PassHeld,
    PoolBuf, PoolSeat, QueueFault, RowSeat, Shared, Sizes,
};
use ppq_testkit::pair;
use std::alloc::Global;
use std::process::Abort;
use std::thread::join_mut;

// What is shared, and two passes of it.
struct Session {
    shared: Shared<MemSlot, Pair>,
    one: Pass<MemSlot, Pair>,
    other: Pass<MemSlot, Pair>,
}

// Two workers, two records a block, one block a heap, a budget of 180 records, and four blocks.
fn sizes(rt: &impl Abort) -> Sizes
    ensures { result ≡ numbers 2 2 1 180 4 }
{
    Sizes::new(2, 2, 1, 180, 4).expect(rt, "sizes")
}

// A pass over new seats.
fn pass_of<H: Host + Abort>(
    rt: &H,
    alloc: Global,
    row_seat: RowSeat<Berth<MemSlot, Pair>>,
    pool_seat: PoolSeat<PoolBuf<Pair>>,
) -> Pass<MemSlot, Pair>
    requires undrawn { row_seat.hand.places ≡ [] }
    requires four { length row_seat.hand.items ≡ 4 }
    requires bytes { All (HasSlot slot_shown 32) row_seat.hand.items }
    requires untaken { pool_seat.hand.numbers ≡ [] }
    requires shape { pool_seat.hand.shape ≡ 2 }
    requires two { count_of pool_seat.pool ≡ 2 }
    ensures row { result.key.row ≡ row_seat.row }
    ensures pool { result.key.pool ≡ pool_seat.pool }
{
    let sizes = sizes(rt);
    let heap = InsertionHeap::new(alloc, 2).expect(rt, "a heap");
    let body = PassBody::new(alloc, 2, 3, 5).expect(rt, "a body");
    let numbers = Vec::with_capacity(alloc, 2).expect(rt, "numbers");
    Pass::new(sizes, heap, body, row_seat, pool_seat, numbers)
}

// Two passes of a new session.
fn two_passes<H: Host + Abort>(rt: &H, alloc: Global) -> Session
    ensures one { IsOf result.shared result.one }
    ensures other { IsOf result.shared result.other }
{
    let Seats {
        shared,
        mut row_seat,
        mut pool_seat,
    } = seats_of(rt, alloc, 4);
    let other_row_seat = shared.row.split(&mut row_seat);
    let other_pool_seat = shared.pool.split(&mut pool_seat);
    let one = pass_of(rt, alloc, row_seat, pool_seat);
    let other = pass_of(rt, alloc, other_row_seat, other_pool_seat);
    Session { shared, one, other }
}

// Pushes 40 records, or as many as are taken.
fn fill<H: Host>(rt: &H, shared: &Shared<MemSlot, Pair>, pass: &mut Pass<MemSlot, Pair>)
where
    H::Dir: Send,
    requires { IsOf shared.now pass.old }
{
    'pushing: for key in 0..40 {
        if pass.push(rt, shared, pair(key)).is_err() {
            break;
        }
    }
}

// Fills two passes, each on a thread of its own.
fn fill_both<H: Host>(
    rt: &H,
    shared: &Shared<MemSlot, Pair>,
    one: &mut Pass<MemSlot, Pair>,
    other: &mut Pass<MemSlot, Pair>,
)
where
    H::Dir: Send,
    requires one { IsOf shared.now one.old }
    requires other { IsOf shared.now other.old }
{
    join_mut(
        rt,
        &mut ||
            requires { IsOf shared.now one.now }
        { fill(rt, shared, one) },
        &mut ||
            requires { IsOf shared.now other.now }
        { fill(rt, shared, other) },
    );
}

// How many records runs in buffers have.
fn in_buffers(runs: &[InternalArray<Pair>]) -> u64 {
    let mut count = 0u64;
    for run in runs {
        count = count.saturating_add(run.len());
    }
    count
}

// How many records runs in blocks have.
fn in_blocks(runs: &[ExternalArray<MemSlot, Pair>]) -> u64 {
    let mut count = 0u64;
    for run in runs {
        count = count.saturating_add(run.len());
    }
    count
}

// How many records are in what a pass had.
fn records_in(held: &PassHeld<MemSlot, Pair>) -> u64 {
    let runs = &held.body.runs;
    let in_runs = in_buffers(runs.internal.as_slice()).saturating_add(in_blocks(
        runs.external.as_slice(),
    ));
    in_runs.saturating_add(u64::from(held.heap.len()))
}

// Drops what a pass had, which in place would be proved anew in each helper.
fn end_held(_held: PassHeld<MemSlot, Pair>) {}

// How many records a pass has.
fn records_of(pass: Pass<MemSlot, Pair>) -> u64 {
    let held = pass.into_parts();
    let count = records_in(&held);
    end_held(held);
    count
}

// How many records a pass accepted that refused one: it has them all.
fn all_of_full<H: Abort>(rt: &H, pass: Pass<MemSlot, Pair>) -> u64 {
    let (refused, accepted) = (pass.refused(), pass.accepted());
    assert!(rt; refused & (records_of(pass) == accepted));
    accepted
}

// How many records two passes accept, by turns or on two threads, until each refuses one.
fn filled<H: Host + Abort>(rt: &H, alloc: Global, on_threads: bool) -> u64
where
    H::Dir: Send,
{
    let Session {
        shared,
        mut one,
        mut other,
    } = two_passes(rt, alloc);
    if on_threads {
        fill_both(rt, &shared, &mut one, &mut other);
    } else {
        fill(rt, &shared, &mut one);
        fill(rt, &shared, &mut other);
    }
    end_shared(shared);
    all_of_full(rt, one).saturating_add(all_of_full(rt, other))
}

// Whether two passes accept what their heaps hold and no more than fits, by turns and on two threads.
fn fill_the_device<H: Host + Abort>(rt: &H, alloc: Global) -> bool
where
    H::Dir: Send,
{
    // the first pass takes three blocks, both buffers and its heap, and keeps the last block; the other has its heap
    let by_turns = filled(rt, alloc, false);
    // two heaps at least; at most four blocks, two buffers and two heaps
    let on_threads = filled(rt, alloc, true);
    (by_turns == 14) & (on_threads >= 4) & (on_threads <= 16)
}

#[test]
fn two_passes_fill_the_device_by_turns_and_on_two_threads(rt: HostRuntime) {
    assert!(rt; fill_the_device(&rt, rt.alloc()));
}

// Pushes records that are taken.
fn must_push<H: Host + Abort>(
    rt: &H,
    shared: &Shared<MemSlot, Pair>,
    pass: &mut Pass<MemSlot, Pair>,
    keys: &[u64],
)
where
    H::Dir: Send,
    requires { IsOf shared.now pass.old }
    ensures { pass.new.key ≡ pass.old.key }
{
    'pushing: for key in keys {
        assert!(rt; pass.push(rt, shared, pair(*key)).is_ok());
    }
}

// Whether a full heap refuses a record that is tried.
fn heap_is_full(pass: &mut Pass<MemSlot, Pair>) -> bool
    ensures { pass.new.key ≡ pass.old.key }
{
    pass.try_push(pair(13)) == Err(Full)
}

// Pushes twelve records, and one that is refused.
fn push_until_refused<H: Host + Abort>(
    rt: &H,
    shared: &Shared<MemSlot, Pair>,
    pass: &mut Pass<MemSlot, Pair>,
)
where
    H::Dir: Send,
    requires { IsOf shared.now pass.old }
{
    must_push(rt, shared, pass, &[5, 4]);
    assert!(rt; heap_is_full(pass));
    // two runs in buffers, then all in three blocks, then two runs in buffers again
    must_push(rt, shared, pass, &[3, 2, 1, 0, 9, 8, 7, 6, 11, 12]);
    let taken = !pass.refused();
    // three blocks more are wanted, and there is one
    let last = pass.push(rt, shared, pair(13)) == Err((pair(13), QueueFault::NoFreeBlock));
    assert!(rt; taken & last & heap_is_full(pass));
}

// Whether two records are in a heap, two runs in buffers, one in blocks, and one slot in a stash.
fn has_all(held: &PassHeld<MemSlot, Pair>) -> bool {
    let runs = &held.body.runs;
    let counts = (runs.internal.len() == 2) & (runs.external.len() == 1);
    let heap = (held.heap.len() == 2) & (held.heap.min() == Some(pair(11)));
    counts & heap & (held.parts.stash.len() == 1)
}

// Whether a pass holds all of these.
fn holds_all(pass: Pass<MemSlot, Pair>) -> bool {
    let held = pass.into_parts();
    let all = has_all(&held);
    end_held(held);
    all
}

// A pass beside one that pushes nothing fills three of the four blocks, and is refused a record then.
fn refuses_one<H: Host + Abort>(rt: &H, alloc: Global)
where
    H::Dir: Send,
{
    let Session {
        shared,
        one: mut pass,
        other,
    } = two_passes(rt, alloc);
    push_until_refused(rt, &shared, &mut pass);
    end_held(other.into_parts());
    end_shared(shared);
    let told = pass.refused() & pass.failed().is_none() & (pass.accepted() == 12);
    assert!(rt; told & holds_all(pass));
}

#[test]
fn a_refused_push_keeps_heap_and_slots(rt: HostRuntime) {
    refuses_one(&rt, rt.alloc())
}

// How many stores of its full heap a pass began.
fn stores_of(pass: Pass<MemSlot, Pair>) -> u64 {
    let held = pass.into_parts();
    let stores = held.stores;
    end_held(held);
    stores
}

// How many stores a pass began that stored five full heaps and was refused the sixth, and how many one
// that pushed nothing.
fn stores_of_both<H: Host + Abort>(rt: &H, alloc: Global) -> (u64, u64)
where
    H::Dir: Send,
{
    let Session {
        shared,
        one: mut pass,
        other,
    } = two_passes(rt, alloc);
    push_until_refused(rt, &shared, &mut pass);
    end_shared(shared);
    (stores_of(pass), stores_of(other))
}

#[test]
fn stores_are_counted_also_one_that_is_refused(rt: HostRuntime) {
    assert!(rt; stores_of_both(&rt, rt.alloc()) == (6, 0));
}
