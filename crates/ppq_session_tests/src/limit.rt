//! Worked examples of limit sessions of two workers, with two records a block and one block a heap. A number
//! stands for the pair with that key and value 0.
use crate::limited::{Added, Done, Giving, in_session};
use crate::records::{add_keys, are_keys, ascend, keys, popped, queue_of};
use ppq_outside::{MemSlot, OpenGate};
use ppq_session::{BeginFault, Host, Pair, Queue, QueueFault, SessionEnd, Sizes, limit_begin};
use ppq_testkit::pair;
use std::alloc::Global;
use std::process::Abort;
use std::test::Fail;

// What a session leaves.
#[derive(Drop)]
struct Left {
    // what the front gave
    given: Vec<Pair>,
    // what the queue has
    kept: Vec<Pair>,
    done: Done,
}

// What a session leaves of a queue with so much memory and so many blocks, to which records were pushed before,
// and to whose passes records are added.
fn left_by<H: Host + Abort>(
    rt: &H,
    alloc: Global,
    (memory, blocks): (u64, u32),
    before: Vec<Pair>,
    limit: u64,
    adds: Vec<Pair>,
    giving: Giving,
) -> Result<Left, Fail>
where
    H::Dir: Send,
{
    let sizes = Sizes::new(2, 2, 1, memory, blocks).expect(rt, "sizes in range");
    let queue = queue_of(rt, alloc, sizes, before)?;
    let (queue, given, done) = in_session(rt, alloc, queue, pair(limit), adds.as_slice(), giving);
    let kept = popped(rt, alloc, queue);
    Ok(Left { given, kept, done })
}

// A session whose first pass adds records, and whose front gives records then.
#[derive(Clone, Copy)]
struct Case<'a> {
    // the keys of the records that were pushed before
    before: &'a [u64],
    limit: u64,
    // the keys that the pass adds, and how many of them find room in its heap
    adds: &'a [u64],
    easy: u64,
    // the keys that the front gives
    gives: &'a [u64],
    // the keys that the queue is left with
    keeps: &'a [u64],
}

// The records with these keys.
fn pairs<H: Abort>(rt: &H, alloc: Global, keys: &[u64]) -> Vec<Pair> {
    let mut pairs = Vec::new(alloc);
    for key in keys {
        pairs.push(pair(*key)).expect(rt, "room for a record");
    }
    pairs
}

// Whether these are the records with these keys.
fn have_keys(records: &[Pair], keys: &[u64]) -> bool {
    if records.len() != keys.len() {
        return false;
    }
    for i in 0..keys.len() {
        if records[i] != pair(keys[i]) {
            return false;
        }
    }
    true
}

// A session does what its case says.
fn does<H: Host + Abort>(rt: &H, alloc: Global, case: Case) -> Result<(), Fail>
where
    H::Dir: Send,
{
    let before = pairs(rt, alloc, case.before);
    let adds = pairs(rt, alloc, case.adds);
    let left = left_by(rt, alloc, (192, 20), before, case.limit, adds, Giving::Then)?;
    let added = Added {
        easy: case.easy,
        refused: None,
    };
    let done = Done {
        end: SessionEnd::Whole,
        added: Some(added),
        accepted: case.adds.len() as u64,
        refused: false,
    };
    let gives = have_keys(left.given.as_slice(), case.gives);
    let keeps = have_keys(left.kept.as_slice(), case.keeps);
    assert!(rt; gives & keeps & (left.done == done));
    Ok(())
}

#[test]
fn a_front_gives_what_is_below_the_limit_and_the_rest_stays(rt: HostRuntime) -> Result<(), Fail> {
    let cases = [
        Case {
            before: &[4, 1],
            limit: 4,
            adds: &[],
            easy: 0,
            gives: &[1],
            keeps: &[4],
        },
        // the buffer of the front is refilled
        Case {
            before: &[7, 3, 5, 1, 6, 2, 4],
            limit: 7,
            adds: &[],
            easy: 0,
            gives: &[1, 2, 3, 4, 5, 6],
            keeps: &[7],
        },
        // the heap of the pass has room for two records
        Case {
            before: &[],
            limit: 4,
            adds: &[4, 5, 4, 6, 4],
            easy: 3,
            gives: &[],
            keeps: &[4, 4, 4, 5, 6],
        },
        Case {
            before: &[6, 3],
            limit: 4,
            adds: &[5, 4, 7],
            easy: 2,
            gives: &[3],
            keeps: &[4, 5, 6, 7],
        },
    ];
    for case in cases {
        does(&rt, rt.alloc(), case)?;
    }
    Ok(())
}

// Two passes on two threads add 80 records while the front gives 20, of a queue with 40.
fn gives_meanwhile<H: Host + Abort>(rt: &H, alloc: Global) -> Result<(), Fail>
where
    H::Dir: Send,
{
    let mut before = keys(rt, alloc, 100, 120);
    add_keys(rt, &mut before, 0, 20);
    let adds = keys(rt, alloc, 20, 100);
    let left = left_by(rt, alloc, (472, 300), before, 20, adds, Giving::Meanwhile)?;
    let done = Done {
        end: SessionEnd::Whole,
        added: None,
        accepted: 80,
        refused: false,
    };
    let gives = are_keys(left.given.as_slice(), 0, 20);
    assert!(rt; gives & are_keys(left.kept.as_slice(), 20, 120) & (left.done == done));
    Ok(())
}

#[test]
fn two_passes_on_two_threads_add_while_the_front_gives(rt: HostRuntime) -> Result<(), Fail> {
    gives_meanwhile(&rt, rt.alloc())
}

// A session on a full device refuses pushes, and the queue has the records of all others then.
fn refuses_some<H: Host + Abort>(rt: &H, alloc: Global) -> Result<(), Fail>
where
    H::Dir: Send,
{
    let before = keys(rt, alloc, 0, 4);
    let adds = keys(rt, alloc, 4, 200);
    let left = left_by(rt, alloc, (180, 8), before, 2, adds, Giving::Meanwhile)?;
    let count = left.done.accepted.saturating_add(2);
    let kept = (left.kept.len() as u64 == count) & ascend(left.kept.as_slice());
    assert!(rt; kept & are_keys(left.given.as_slice(), 0, 2) & left.done.refused);
    Ok(())
}

#[test]
fn pushes_that_a_full_device_refuses_leave_all_other_records(rt: HostRuntime) -> Result<(), Fail> {
    refuses_some(&rt, rt.alloc())
}

// A session on a full device hands a record back.
fn hands_back<H: Host + Abort>(rt: &H, alloc: Global) -> Result<(), Fail>
where
    H::Dir: Send,
{
    let adds = keys(rt, alloc, 0, 100);
    let left = left_by(rt, alloc, (180, 8), Vec::new(alloc), 0, adds, Giving::Then)?;
    // Eight blocks and a heap, of two records each. The first two records find room in the heap, and then every
    // second one
    let added = Added {
        easy: 10,
        refused: Some((pair(18), QueueFault::NoFreeBlock)),
    };
    assert!(rt; (left.done.added == Some(added)) & are_keys(left.kept.as_slice(), 0, 18));
    Ok(())
}

#[test]
fn a_full_device_hands_the_record_back(rt: HostRuntime) -> Result<(), Fail> {
    hands_back(&rt, rt.alloc())
}

// The records of a queue whose device is full, and with which no session begins.
fn begins_none<H: Host + Abort>(rt: &H, alloc: Global, queue: Queue<MemSlot, Pair>) -> Vec<Pair>
where
    H::Dir: Send,
{
    let mut queue = queue;
    let refused = queue.push(rt, pair(18), &OpenGate);
    assert!(rt; refused == Err((pair(18), QueueFault::NoFreeBlock)));
    let (queue, fault) = match limit_begin(rt, alloc, queue, pair(4), &OpenGate) {
        Err(refused) => refused,
        Ok(_) => panic!(rt; "a session began"),
    };
    assert!(rt; fault == BeginFault::NoFreeBlock);
    popped(rt, alloc, queue)
}

// No session begins on a full device, and the queue keeps its records.
fn keeps_all<H: Host + Abort>(rt: &H, alloc: Global) -> Result<(), Fail>
where
    H::Dir: Send,
{
    let sizes = Sizes::new(2, 2, 1, 180, 8).expect(rt, "sizes in range");
    // eight blocks and a heap, of two records each
    let queue = queue_of(rt, alloc, sizes, keys(rt, alloc, 0, 18))?;
    let records = begins_none(rt, alloc, queue);
    assert!(rt; are_keys(records.as_slice(), 0, 18));
    Ok(())
}

#[test]
fn a_full_device_begins_no_session(rt: HostRuntime) -> Result<(), Fail> {
    keeps_all(&rt, rt.alloc())
}

// A session of four workers, whose front reads blocks beside its merges, of 8,192 records each, while the passes,
// which add more than the pool's four buffers hold, add records on threads of their own. So many records were
// popped before it, and where there were some, blocks are loaded ahead when it begins.
fn reads_beside<H: Host + Abort>(rt: &H, alloc: Global, before: u64) -> Result<(), Fail>
where
    H::Dir: Send,
{
    // four heaps of four blocks, 24 and 72 blocks, the four of the pool, and one record a block
    let sizes = Sizes::new(4, 2048, 4, 238168, 600).expect(rt, "sizes in range");
    let mut records = Vec::new(alloc);
    for i in 0..102400u64 {
        records
            .push(pair(i * 77 % 102400))
            .expect(rt, "room for a record");
    }
    let mut queue = queue_of(rt, alloc, sizes, records)?;
    'popping: for key in 0..before {
        assert!(rt; queue.pop(rt, &OpenGate) == Ok(Some(pair(key))));
    }
    let adds = keys(rt, alloc, 102400, 204800);
    let adds = adds.as_slice();
    let (queue, given, done) = in_session(rt, alloc, queue, pair(76800), adds, Giving::Meanwhile);
    let kept = popped(rt, alloc, queue);
    assert!(rt;
        are_keys(given.as_slice(), before, 76800) & are_keys(kept.as_slice(), 76800, 204800)
    );
    assert!(rt; (done.end == SessionEnd::Whole) & (done.accepted == 102400) & !done.refused);
    Ok(())
}

#[test]
fn a_front_gives_in_order_while_passes_want_more_buffers_than_there_are(
    rt: HostRuntime,
) -> Result<(), Fail> {
    reads_beside(&rt, rt.alloc(), 0)
}

#[test]
fn a_front_gives_in_order_after_pops_before_its_session(rt: HostRuntime) -> Result<(), Fail> {
    reads_beside(&rt, rt.alloc(), 3)
}
