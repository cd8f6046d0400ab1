//! Sessions of two workers in which two parts meet a failed block, with two records a block and one block a heap: the
//! end names the block of the first pass that met one, whichever part met one first.
ghost use Rattle.std.specs.Prelude.{◌≡◌, IfOk};

use crate::bulk::{Adding, Done as BulkDone, in_session as in_bulk};
use crate::limited::{Added, Done, Giving, in_session};
use crate::session::lines_of;
use ppq_outside::{MemRack, MemSlot, OpenGate};
use ppq_session::{Host, Pair, Queue, QueueFault, SessionEnd, Sizes};
use ppq_testkit::{opened, pair, pushed};
use std::alloc::Global;
use std::process::Abort;
use std::test::Fail;

// The fault of a call of block 1.
const FAULT: QueueFault = QueueFault::Device { number: 1 };

// A queue over 200 blocks, of which block 0 fails this call and block 1 its first one, with these records.
fn failing<H: Host + Abort>(
    rt: &H,
    alloc: Global,
    call: u64,
    records: &[Pair],
) -> Result<Queue<MemSlot, Pair>, Fail>
where
    H::Dir: Send,
{
    let mut calls = Vec::new(alloc);
    calls.push((0, call)).expect(rt, "room for a call");
    calls.push((1, 1)).expect(rt, "room for a call");
    let mut rack = MemRack::failing(calls, Vec::new(alloc));
    let queue = opened(rt, alloc, &mut rack, Sizes::new(2, 2, 1, 372, 200))?;
    pushed(rt, queue, records)
}

// Whether block 1 has stopped a queue of so many records, which gives all its blocks back.
fn is_stopped<H: Host>(rt: &H, queue: Queue<MemSlot, Pair>, size: u64) -> bool
where
    H::Dir: Send,
{
    let mut queue = queue;
    let pushed = queue.push(rt, pair(7), &OpenGate) == Err((pair(7), FAULT));
    let popped = queue.pop(rt, &OpenGate) == Err(FAULT);
    let counts = queue.size() == size;
    let blocks = queue.close();
    pushed & popped & counts & (blocks.len() == 200)
}

// The second pass meets block 0, and then the first one block 1.
fn two_passes<H: Host + Abort>(rt: &H, alloc: Global) -> Result<(), Fail>
where
    H::Dir: Send,
{
    let queue = failing(rt, alloc, 1, &[])?;
    let (queue, end, done) = in_bulk(rt, alloc, queue, Adding::Faulty, &[]);
    let two = BulkDone {
        taken: false,
        accepted: (2, 2),
    };
    let stopped = is_stopped(rt, queue, 4);
    assert!(rt; stopped & (end == SessionEnd::Stopped(FAULT)) & (done == two));
    Ok(())
}

#[test]
fn of_two_passes_that_met_a_fault_the_first_is_named(rt: HostRuntime) -> Result<(), Fail> {
    two_passes(&rt, rt.alloc())
}

// The front meets block 0, and then the first pass block 1.
fn front_and_pass<H: Host + Abort>(rt: &H, alloc: Global) -> Result<(), Fail>
where
    H::Dir: Send,
{
    let queue = failing(rt, alloc, 2, &[pair(1), pair(2)])?;
    let adds = [pair(4), pair(5), pair(6)];
    let (queue, given, done) = in_session(rt, alloc, queue, pair(4), &adds, Giving::Failing);
    let stopped = is_stopped(rt, queue, 4);
    let one = Done {
        end: SessionEnd::Stopped(FAULT),
        added: Some(Added {
            easy: 2,
            refused: Some((pair(6), FAULT)),
        }),
        accepted: 2,
        refused: false,
    };
    assert!(rt; stopped & given.is_empty() & (done == one));
    Ok(())
}

#[test]
fn of_a_front_and_a_pass_that_met_a_fault_the_pass_is_named(rt: HostRuntime) -> Result<(), Fail> {
    front_and_pass(&rt, rt.alloc())
}

// Two passes store 98 runs of a block, and then three of these blocks cannot be read. At least one of them is read
// while levels are merged, by two merges at once.
fn merges_in_vain<H: Host + Abort>(rt: &H, alloc: Global) -> Result<(), Fail>
where
    H::Dir: Send,
{
    let mut rack = MemRack::failing(vec![in alloc; (30, 2), (31, 2), (32, 2)]?, Vec::new(alloc));
    let queue = opened(rt, alloc, &mut rack, Sizes::new(2, 2, 1, 472, 300))?;
    let lines = lines_of(rt, alloc, 200);
    let (queue, end, done) = in_bulk(rt, alloc, queue, Adding::Lines, lines.as_slice());
    let named = match end {
        SessionEnd::Stopped(QueueFault::Device { number }) => (30..33).contains(&number),
        _ => false,
    };
    assert!(rt; named & done.taken & (queue.size() == 200) & (queue.close().len() == 300));
    Ok(())
}

#[test]
fn a_block_that_fails_while_a_level_is_merged_twice_is_named(rt: HostRuntime) -> Result<(), Fail> {
    merges_in_vain(&rt, rt.alloc())
}
