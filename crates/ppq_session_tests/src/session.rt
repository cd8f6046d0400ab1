//! Worked examples of bulk sessions, with two records a block and one block a heap, or two where a test says so.
ghost use Rattle.std.specs.Prelude.{◌≡◌, ◌<◌, All, IfOk};
ghost use Rattle.ppq_session.specs.Dealing.{IsGoing};

use crate::bulk::{Adding, Done, ended_by, in_session};
use crate::records::{are_keys, are_twins, ascend, popped, queue_of};
use ppq_array::Berth;
use ppq_outside::{MemSlot, OpenGate};
use ppq_session::{
    Host, Line, Out, Pair, PoolBuf, Queue, Session, SessionEnd, Sizes, Slot, sessions_are_histories,
};
use ppq_testkit::{CrowdGate, pair};
use std::alloc::Global;
use std::process::Abort;
use std::test::Fail;

// Records with the keys from 0 on, so many, the last one first.
fn falling<H: Abort>(rt: &H, alloc: Global, count: u64) -> Vec<Pair> {
    let mut records = Vec::new(alloc);
    for i in 0..count {
        records
            .push(pair(count - 1 - i))
            .expect(rt, "room for a record");
    }
    records
}

/// So many lines for two passes by turns, with the keys from 0 on, the last one first.
pub fn lines_of<H: Abort>(rt: &H, alloc: Global, count: u64) -> Vec<Line<Pair>>
    ensures { All (λ line. line.pass < 2) result.items }
{
    let mut lines = Vec::new(alloc);
    'lining: for i in 0..count {
        let line = Line {
            pass: (i % 2) as u32,
            record: pair(count - 1 - i),
        };
        lines.push(line).expect(rt, "room for a line");
    }
    lines
}

// A session of a queue for two workers.
#[derive(Clone, Copy)]
struct Case {
    memory: u64,
    blocks: u32,
    // how many records were pushed to the queue before
    pushed: u64,
    // how many lines are pushed in the session
    lines: u64,
}

// The records that the queue has after a session, how the session ended, and what its passes did.
fn left_by<H: Host + Abort>(
    rt: &H,
    alloc: Global,
    case: Case,
) -> Result<(Vec<Pair>, SessionEnd, Done), Fail>
where
    H::Dir: Send,
{
    let sizes = Sizes::new(2, 2, 1, case.memory, case.blocks).expect(rt, "sizes in range");
    let queue = queue_of(rt, alloc, sizes, falling(rt, alloc, case.pushed))?;
    let lines = lines_of(rt, alloc, case.lines);
    let (queue, end, done) = in_session(rt, alloc, queue, Adding::Lines, lines.as_slice());
    Ok((popped(rt, alloc, queue), end, done))
}

// A session takes all its lines, and the queue has its records and those that were pushed before then.
fn takes_all<H: Host + Abort>(rt: &H, alloc: Global, case: Case) -> Result<(), Fail>
where
    H::Dir: Send,
{
    let (records, end, done) = left_by(rt, alloc, case)?;
    let whole = Done {
        taken: true,
        accepted: (case.lines / 2, case.lines / 2),
    };
    let records = records.as_slice();
    let all = if case.pushed == case.lines {
        are_twins(records, case.lines, 0)
    } else {
        are_keys(records, 0, case.lines.max(case.pushed))
    };
    assert!(rt; all & (end == SessionEnd::Whole) & (done == whole));
    Ok(())
}

#[test]
fn records_from_before_and_of_both_passes_come_out_together(rt: HostRuntime) -> Result<(), Fail> {
    // the memory, the blocks, how many records were pushed before, and how many lines are pushed
    let cases = [
        (472, 300, 0, 200),
        (472, 300, 31, 0),
        (472, 300, 20, 20),
        (232, 20, 5, 0),
    ];
    for (memory, blocks, pushed, lines) in cases {
        let case = Case {
            memory,
            blocks,
            pushed,
            lines,
        };
        takes_all(&rt, rt.alloc(), case)?;
    }
    Ok(())
}

// How many blocks were written and read until the end of a session.
fn transfers_by<H: Host + Abort>(rt: &H, alloc: Global, case: Case) -> Result<(u64, u64), Fail>
where
    H::Dir: Send,
{
    let sizes = Sizes::new(2, 2, 1, case.memory, case.blocks).expect(rt, "sizes in range");
    let queue = queue_of(rt, alloc, sizes, falling(rt, alloc, case.pushed))?;
    let lines = lines_of(rt, alloc, case.lines);
    let (queue, _end, _done) = in_session(rt, alloc, queue, Adding::Lines, lines.as_slice());
    Ok(sums_of(queue.close()))
}

// How often all these slots were written, and how often they were read.
fn sums_of(slots: Vec<MemSlot>) -> (u64, u64) {
    let mut writes: u64 = 0;
    let mut reads: u64 = 0;
    for slot in slots.as_slice() {
        writes = writes.saturating_add(slot.writes());
        reads = reads.saturating_add(slot.reads());
    }
    (writes, reads)
}

#[test]
fn a_session_writes_no_more_blocks_than_its_records_pay_for(rt: HostRuntime) -> Result<(), Fail> {
    let case = Case {
        memory: 472,
        blocks: 300,
        pushed: 31,
        lines: 200,
    };
    let (writes, reads) = transfers_by(&rt, rt.alloc(), case)?;
    // 231 records, which fill a heap of two records 116 times, and a session, with blocks of two records
    let most = (8 * (231 + 4 * (116 + 1)) + 2 * 2 * (2 * 116 + 4)) / 2;
    assert!(rt; (writes > 0) & (reads <= writes) & (writes <= most));
    Ok(())
}

// Whether of these slots the first so many, by number, were written once, and the others never.
fn are_written_once(slots: &[MemSlot], count: u32) -> bool {
    let mut once = true;
    for slot in slots {
        once &= slot.writes() == u64::from(slot.number() < count);
    }
    once
}

// The blocks of a queue after a session of two passes, to which six records each are pushed. No buffer is left for the
// pool, so each pass stores two heaps, a block each, and the third stays in its heap.
fn blocks_after<H: Host + Abort>(rt: &H, alloc: Global) -> Result<Vec<MemSlot>, Fail>
where
    H::Dir: Send,
{
    let sizes = Sizes::new(2, 2, 1, 372, 200).expect(rt, "sizes in range");
    let queue = queue_of(rt, alloc, sizes, Vec::new(alloc))?;
    let lines = lines_of(rt, alloc, 12);
    let (queue, end, done) = in_session(rt, alloc, queue, Adding::Lines, lines.as_slice());
    assert!(rt; done.taken & (end == SessionEnd::Whole));
    Ok(queue.close())
}

#[test]
fn passes_draw_the_blocks_in_order_and_write_each_once(rt: HostRuntime) -> Result<(), Fail> {
    sessions_are_histories::<PoolBuf<Pair>, Berth<MemSlot, Pair>, Pair>();
    let slots = blocks_after(&rt, rt.alloc())?;
    assert!(rt; (slots.len() == 200) & are_written_once(slots.as_slice(), 4));
    Ok(())
}

// A session whose two passes store 98 runs of a block, since no buffer is left for the pool. At its end the gate holds
// each worker until three have entered, and a merge of a level alone has two.
fn merges_two_at_once<H: Host + Abort>(rt: &H, alloc: Global) -> Result<(), Fail>
where
    H::Dir: Send,
{
    let sizes = Sizes::new(2, 2, 1, 472, 300).expect(rt, "sizes in range");
    let queue = queue_of(rt, alloc, sizes, Vec::new(alloc))?;
    let lines = lines_of(rt, alloc, 200);
    let gate = CrowdGate::new(3);
    let (queue, end, done) = ended_by(rt, alloc, queue, Adding::Lines, lines.as_slice(), &gate);
    assert!(rt; done.taken & (end == SessionEnd::Whole) & gate.is_passed());
    assert!(rt; are_keys(popped(rt, alloc, queue).as_slice(), 0, 200));
    Ok(())
}

#[test]
fn the_end_of_a_session_merges_a_level_twice_at_once(rt: HostRuntime) -> Result<(), Fail> {
    merges_two_at_once(&rt, rt.alloc())
}

// A session refuses some of its lines, and the queue has the records of all others then.
fn refuses_some<H: Host + Abort>(rt: &H, alloc: Global, case: Case) -> Result<(), Fail>
where
    H::Dir: Send,
{
    let (records, _end, done) = left_by(rt, alloc, case)?;
    let count = done.accepted.0.saturating_add(done.accepted.1);
    let whole = (records.len() as u64 == count) & ascend(records.as_slice());
    assert!(rt; !done.taken & whole);
    Ok(())
}

#[test]
fn lines_that_a_full_device_refuses_leave_all_other_records(rt: HostRuntime) -> Result<(), Fail> {
    let case = Case {
        memory: 372,
        blocks: 2,
        pushed: 0,
        lines: 400,
    };
    refuses_some(&rt, rt.alloc(), case)
}

// An empty queue of these sizes after a session, if it ended whole and each pass accepted so many records.
fn after_session<H: Host + Abort>(
    rt: &H,
    alloc: Global,
    sizes: Sizes,
    adding: Adding,
    count: u64,
) -> Result<Queue<MemSlot, Pair>, Fail>
where
    H::Dir: Send,
    ensures { IfOk result (λ queue. queue.sizes ≡ sizes) }
{
    let queue = queue_of(rt, alloc, sizes, Vec::new(alloc))?;
    let (queue, end, done) = in_session(rt, alloc, queue, adding, &[]);
    assert!(rt; (end == SessionEnd::Whole) & (done.accepted == (count, count)));
    Ok(queue)
}

// A session of one worker without a device.
fn without_device<H: Host + Abort>(rt: &H, alloc: Global) -> Result<(), Fail>
where
    H::Dir: Send,
{
    let sizes = Sizes::new(1, 2, 1, 158, 0).expect(rt, "sizes in range");
    let queue = after_session(rt, alloc, sizes, Adding::Three, 2)?;
    assert!(rt; are_keys(popped(rt, alloc, queue).as_slice(), 1, 3));
    Ok(())
}

#[test]
fn a_pass_without_a_device_holds_one_heap(rt: HostRuntime) -> Result<(), Fail> {
    without_device(&rt, rt.alloc())
}

// Pops all records of a queue of these sizes, by as many calls as the list of one wants, at most 400.
fn popped_in_bulk<H: Host + Abort>(
    rt: &H,
    alloc: Global,
    queue: Queue<MemSlot, Pair>,
    sizes: Sizes,
) -> Vec<Pair>
where
    H::Dir: Send,
    requires { queue.sizes ≡ sizes }
{
    let mut queue = queue;
    let mut out = Out::new(alloc, &sizes).expect(rt, "a list");
    let mut records = Vec::new(alloc);
    'rounds: for _ in 0..400 {
        let left = queue.size();
        queue
            .bulk_pop(rt, left, &mut out, &OpenGate)
            .expect(rt, "a bulk pop");
        if out.is_empty() {
            break;
        }
        records
            .extend_from_slice(out.as_slice())
            .expect(rt, "room for records");
    }
    assert!(rt; queue.size() == 0);
    let _slots = queue.close();
    records
}

// A session in which two threads of the test's own push.
fn with_own_threads<H: Host + Abort>(rt: &H, alloc: Global) -> Result<(), Fail>
where
    H::Dir: Send,
{
    let sizes = Sizes::new(2, 2, 1, 472, 300).expect(rt, "sizes in range");
    let queue = after_session(rt, alloc, sizes, Adding::Hundreds, 100)?;
    let records = popped_in_bulk(rt, alloc, queue, sizes);
    assert!(rt; are_twins(records.as_slice(), 100, 1));
    Ok(())
}

#[test]
fn what_two_threads_of_ones_own_push_comes_out_in_order(rt: HostRuntime) -> Result<(), Fail> {
    with_own_threads(&rt, rt.alloc())
}

// A line of a pass.
fn line(pass: u32) -> Line<Pair>
    ensures { result.pass ≡ pass }
{
    Line {
        pass,
        record: pair(7),
    }
}

/// A session of an empty queue for three workers, with heaps of four records.
pub fn begun<H: Host + Abort>(rt: &H, alloc: Global) -> Result<Session<MemSlot, Pair>, Fail>
where
    H::Dir: Send,
    ensures workers { IfOk result (λ session. session.bulk.sizes.workers ≡ 3) }
    ensures going { IfOk result (λ session. All IsGoing session.passes) }
{
    let sizes = Sizes::new(3, 2, 2, 232, 20).expect(rt, "sizes in range");
    let queue = queue_of(rt, alloc, sizes, Vec::new(alloc))?;
    match Session::begin(rt, alloc, queue, &OpenGate) {
        Ok(session) => Ok(session),
        Err(_) => panic!(rt; "no session began"),
    }
}

// The queue after a session that gave the first worker's heap one record, the second's two and the third's three.
fn after_steps<H: Host + Abort>(rt: &H, alloc: Global) -> Result<Queue<MemSlot, Pair>, Fail>
where
    H::Dir: Send,
{
    let mut session = begun(rt, alloc)?;
    let lines = [line(0), line(1), line(1), line(2), line(2), line(2)];
    let all = session.push(rt, &lines, &OpenGate);
    let (queue, end) = session.end(rt, &OpenGate);
    assert!(rt; all & end.is_ok());
    Ok(queue)
}

// Each pass of a second session has the heap that its worker had in the first.
fn come_back<H: Host + Abort>(rt: &H, alloc: Global) -> Result<(), Fail>
where
    H::Dir: Send,
{
    let queue = after_steps(rt, alloc)?;
    let (queue, end, done) = in_session(rt, alloc, queue, Adding::Fill, &[]);
    let records = popped(rt, alloc, queue);
    assert!(rt; (end == SessionEnd::Whole) & (done.accepted == (3, 1)) & (records.len() == 12));
    Ok(())
}

#[test]
fn each_worker_has_its_own_heap_again_in_the_next_session(rt: HostRuntime) -> Result<(), Fail> {
    come_back(&rt, rt.alloc())
}
