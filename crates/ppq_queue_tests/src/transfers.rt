//! The bound on block transfers, asked of queues in memory after each of a few generated calls. What a queue
//! wrote and read is seen when it is closed, so each beginning of the calls is made by a queue of its own.
use crate::queue::holding;
use ppq_budget::Sizes;
use ppq_outside::{Host, MemRack, MemSlot, OpenGate, Slot};
use ppq_queue::{Queue, writes_are_few};
use ppq_record::Pair;
use ppq_testkit::{draw, most_written, pair};
use std::alloc::Global;
use std::process::Abort;

// What counts for the bound: records that were pushed, and sessions that were begun.
#[derive(Drop)]
struct Calls {
    pushed: u64,
    begun: u64,
}

// Workers, records a block, which are as many as a heap has, and records of the budget.
#[derive(Drop)]
struct Shape {
    workers: u32,
    block: u32,
    memory: u64,
}

// The sizes of a queue: heaps of one block, and 200 blocks on the device.
fn sizes_of(shape: &Shape) -> Option<Sizes> {
    Sizes::new(shape.workers, shape.block, 1, shape.memory, 200)
}

// The writes of all these blocks, and whether none of them was read more often than written.
fn transfers_of(blocks: &[MemSlot]) -> (u64, bool) {
    let (mut writes, mut are_spent) = (0u64, true);
    for slot in blocks {
        writes = writes.saturating_add(slot.writes());
        are_spent &= slot.reads() <= slot.writes();
    }
    (writes, are_spent)
}

// Closes a queue, and says whether its transfers are within the bound.
fn closes_within(queue: Queue<MemSlot, Pair>, shape: &Shape, calls: &Calls) -> bool {
    writes_are_few();
    let blocks = queue.close();
    let (writes, are_spent) = transfers_of(&blocks);
    let written = u64::from(shape.block).saturating_mul(writes);
    let most = most_written(shape.workers, shape.block, 1, calls.pushed, calls.begun);
    (written <= most) & are_spent
}

// Makes a generated call.
fn makes_call<H: Host + Abort>(
    rt: &H,
    queue: &mut Queue<MemSlot, Pair>,
    seed: &mut u64,
    calls: &mut Calls,
)
where
    H::Dir: Send,
{
    let choice = draw(seed, 12);
    let key = draw(seed, 50);
    if choice < 8 {
        assert!(rt; queue.push(rt, pair(key), &OpenGate).is_ok());
        calls.pushed = calls.pushed.saturating_add(1);
    } else if choice < 10 {
        assert!(rt; queue.pop(rt, &OpenGate).is_ok());
    } else {
        let begun = if choice < 11 {
            queue.begin_session(rt, key < 25, &OpenGate)
        } else {
            queue.store_heaps(rt, &OpenGate)
        };
        assert!(rt; begun.is_ok());
        calls.begun = calls.begun.saturating_add(1);
    }
}

// Whether a queue that made so many of the calls of a case is within the bound.
fn is_within<H: Host + Abort>(rt: &H, alloc: Global, shape: &Shape, case: u64, length: u64) -> bool
where
    H::Dir: Send,
{
    let mut queue = holding(rt, alloc, MemRack::new(), sizes_of(shape), &[]);
    let mut calls = Calls {
        pushed: 0,
        begun: 0,
    };
    let mut seed = case;
    for _ in 0..length {
        makes_call(rt, &mut queue, &mut seed, &mut calls);
    }
    closes_within(queue, shape, &calls)
}

// Whether it is so after each of 40 calls of a few cases.
fn are_within<H: Host + Abort>(rt: &H, alloc: Global, shape: &Shape) -> bool
where
    H::Dir: Send,
{
    let mut within = true;
    for case in 0..5u64 {
        for length in 0..40u64 {
            within &= is_within(rt, alloc, shape, case, length);
        }
    }
    within
}

// Two workers with heaps of two records, and three with heaps of three.
fn both_are_within<H: Host + Abort>(rt: &H, alloc: Global) -> bool
where
    H::Dir: Send,
{
    let two = Shape {
        workers: 2,
        block: 2,
        memory: 372,
    };
    let three = Shape {
        workers: 3,
        block: 3,
        memory: 500,
    };
    are_within(rt, alloc, &two) & are_within(rt, alloc, &three)
}

#[test]
fn each_of_a_few_calls_keeps_transfers_within_the_bound(rt: HostRuntime) {
    assert!(rt; both_are_within(&rt, rt.alloc()));
}
