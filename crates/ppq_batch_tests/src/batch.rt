//! Worked examples of batches of two workers over blocks in memory, with two records a block and one block
//! a heap. A number stands for the pair with that key and value 0.
ghost use Rattle.std.specs.Prelude.{◌≡◌, ◌<◌, false, All, IsTrue};
ghost use Rattle.ppq_record.specs.Order.{is_before};
ghost use Rattle.ppq_load.specs.ppq_session.Batches.{AreAbove};
ghost use Rattle.ppq_load.specs.ppq_session.LimitSessions.{AreGoing};

use crate::queues::{filled, pairs, popped};
use ppq_budget::Sizes;
use ppq_load::{Ask, LimitSession, Line, Queue, QueueFault};
use ppq_outside::{Gate, Host, MemRack, MemSlot, OpenGate};
use ppq_record::{Pair, Record};
use ppq_testkit::{CrowdGate, PairGate, pair};
use std::alloc::Global;
use std::process::Abort;

// A line with the record of this key for a pass.
fn line(pass: u32, key: u64) -> Line<Pair> {
    Line {
        pass,
        record: pair(key),
    }
}

// An empty queue for two workers, over so many blocks of a device, with records of these keys.
fn queue_of<H: Host + Abort>(
    rt: &H,
    alloc: Global,
    rack: &mut MemRack,
    memory: u64,
    blocks: u32,
    keys: &[u64],
) -> Queue<MemSlot, Pair>
where
    H::Dir: Send,
    ensures { result.sizes.workers ≡ 2 }
{
    filled(rt, alloc, rack, Sizes::new(2, 2, 1, memory, blocks), keys)
}

// Whether a line is for one of two passes, and its record not below the limit.
fn is_fit<R: Record>(line: Line<R>, limit: R) -> bool
    ensures named { IsTrue result → line.pass < 2 }
    ensures above { IsTrue result → is_before R.Ord.cmp line.record limit ≡ false }
{
    line.pass < 2 && !line.record.is_less(&limit)
}

// Whether all lines are.
fn are_fit<R: Record>(lines: &[Line<R>], limit: R) -> bool
    ensures named { IsTrue result → All (λ line. line.pass < 2) lines.now }
    ensures above { IsTrue result → AreAbove R.Ord.cmp limit lines.now }
{
    for i in 0..lines.len() {
        if !is_fit(lines[i], limit) {
            return false;
        }
    }
    true
}

// The lines and the asks of a batch.
#[derive(Clone, Copy)]
struct Batch<'a> {
    lines: &'a [Line<Pair>],
    asks: &'a [Ask],
}

// What came of a session.
#[derive(Drop)]
struct Told {
    // whether all of the last batch was done
    all: bool,
    // the answers of each batch
    first: Vec<Option<Pair>>,
    second: Vec<Option<Pair>>,
    // how the session ended
    end: Result<(), QueueFault>,
    // how many records the queue had then
    size: u64,
    // those that it gave, in their order
    left: Vec<Pair>,
}

// A session of a queue with two workers.
fn begun<H: Host + Abort>(
    rt: &H,
    alloc: Global,
    queue: Queue<MemSlot, Pair>,
    limit: Pair,
) -> LimitSession<MemSlot, Pair>
where
    H::Dir: Send,
    requires { queue.sizes.workers ≡ 2 }
    ensures workers { result.front.sizes.workers ≡ 2 }
    ensures limit { result.front.limit ≡ limit }
    ensures going { AreGoing result }
{
    match LimitSession::begin(rt, alloc, queue, limit, &OpenGate) {
        Ok(session) => session,
        Err(_) => panic!(rt; "no session began"),
    }
}

// Runs a batch, whose lines fit. Whether all of it was done, and the answers.
fn ran<H: Host + Abort, G: Gate>(
    rt: &H,
    alloc: Global,
    session: &mut LimitSession<MemSlot, Pair>,
    limit: Pair,
    batch: Batch<'_>,
    gate: &G,
) -> (bool, Vec<Option<Pair>>)
where
    H::Dir: Send,
    requires workers { session.old.front.sizes.workers ≡ 2 }
    requires limit { session.old.front.limit ≡ limit }
    requires going { AreGoing session.old }
    ensures workers { session.new.front.sizes.workers ≡ 2 }
    ensures limit { session.new.front.limit ≡ limit }
    ensures going { IsTrue result.0 → AreGoing session.new }
{
    assert!(rt; are_fit(batch.lines, limit));
    let mut answers = Vec::with_capacity(alloc, batch.asks.len()).expect(rt, "no memory");
    let all = session.run(rt, batch.lines, batch.asks, &mut answers, gate);
    (all, answers)
}

// Runs a batch, and another where all of the first was done. Whether all of the last was done, and the
// answers of each.
fn both<H: Host + Abort, G: Gate>(
    rt: &H,
    alloc: Global,
    session: &mut LimitSession<MemSlot, Pair>,
    limit: Pair,
    batches: [Batch<'_>; 2],
    gate: &G,
) -> (bool, Vec<Option<Pair>>, Vec<Option<Pair>>)
where
    H::Dir: Send,
    requires workers { session.old.front.sizes.workers ≡ 2 }
    requires limit { session.old.front.limit ≡ limit }
    requires going { AreGoing session.old }
{
    let (all, first) = ran(rt, alloc, session, limit, batches[0], gate);
    if all {
        let (all, second) = ran(rt, alloc, session, limit, batches[1], gate);
        return (all, first, second);
    }
    (false, first, Vec::new(alloc))
}

// A session of two batches.
fn session<H: Host + Abort, G: Gate>(
    rt: &H,
    alloc: Global,
    queue: Queue<MemSlot, Pair>,
    limit: Pair,
    batches: [Batch<'_>; 2],
    gate: &G,
) -> Told
where
    H::Dir: Send,
    requires { queue.sizes.workers ≡ 2 }
{
    let mut session = begun(rt, alloc, queue, limit);
    let (all, first, second) = both(rt, alloc, &mut session, limit, batches, gate);
    let (queue, end) = session.end(rt, gate);
    Told {
        all,
        first,
        second,
        end,
        size: queue.size(),
        left: popped(rt, alloc, queue),
    }
}

// A session of one batch, and one with no line and no ask.
fn in_one<H: Host + Abort, G: Gate>(
    rt: &H,
    alloc: Global,
    queue: Queue<MemSlot, Pair>,
    limit: u64,
    lines: &[Line<Pair>],
    asks: &[Ask],
    gate: &G,
) -> Told
where
    H::Dir: Send,
    requires { queue.sizes.workers ≡ 2 }
{
    let first = Batch { lines, asks };
    let second = Batch {
        lines: &[],
        asks: &[],
    };
    session(rt, alloc, queue, pair(limit), [first, second], gate)
}

// Whether all of the last batch of a session was done, and how the session ended.
fn ended<H: Host + Abort>(rt: &H, told: &Told, all: bool, end: Result<(), QueueFault>) {
    if told.all != all || told.end != end {
        panic!(rt; "all: {}, and it ended with {:?}", told.all, told.end);
    }
}

// The answers of a batch are these.
fn answered<H: Host + Abort>(rt: &H, answers: &[Option<Pair>], wants: &[Option<Pair>]) {
    if answers != wants {
        panic!(rt; "answered {answers:?}");
    }
}

// The records that were left are those of these keys.
fn left<H: Host + Abort>(rt: &H, alloc: Global, told: &Told, keys: &[u64]) {
    if told.left != pairs(rt, alloc, keys) {
        panic!(rt; "left were {:?}", told.left);
    }
}

#[test]
fn asks_are_answered_beside_the_lines_of_two_batches(rt: HostRuntime) {
    let keys = [5, 1, 3];
    let queue = queue_of(&rt, rt.alloc(), &mut MemRack::new(), 372, 40, &keys);
    let first = Batch {
        lines: &[line(0, 6), line(1, 4)],
        asks: &[Ask::Top, Ask::Pop, Ask::Pop, Ask::Pop],
    };
    let second = Batch {
        lines: &[line(1, 7), line(0, 5)],
        asks: &[Ask::Pop],
    };
    let told = session(&rt, rt.alloc(), queue, pair(4), [first, second], &OpenGate);
    let wants = [Some(pair(1)), Some(pair(1)), Some(pair(3)), None];
    answered(&rt, &told.first, &wants);
    answered(&rt, &told.second, &[None]);
    ended(&rt, &told, true, Ok(()));
    left(&rt, rt.alloc(), &told, &[4, 5, 5, 6, 7]);
}

#[test]
fn two_passes_push_at_once(rt: HostRuntime) {
    let queue = queue_of(&rt, rt.alloc(), &mut MemRack::new(), 372, 40, &[]);
    let gate = PairGate::new();
    let lines = [line(0, 6), line(1, 5)];
    let told = in_one(&rt, rt.alloc(), queue, 4, &lines, &[Ask::Top], &gate);
    assert!(rt; gate.is_passed());
    answered(&rt, &told.first, &[None]);
    ended(&rt, &told, true, Ok(()));
    left(&rt, rt.alloc(), &told, &[5, 6]);
}

#[test]
fn asks_are_answered_while_the_passes_are_under_way(rt: HostRuntime) {
    let keys = [5, 1, 3];
    let queue = queue_of(&rt, rt.alloc(), &mut MemRack::new(), 372, 40, &keys);
    // The workers of two passes and one of the front's merge: each is held until all three have entered.
    let gate = CrowdGate::new(3);
    let lines = [line(0, 6), line(1, 5)];
    let told = in_one(&rt, rt.alloc(), queue, 4, &lines, &[Ask::Pop], &gate);
    assert!(rt; gate.is_passed());
    answered(&rt, &told.first, &[Some(pair(1))]);
    ended(&rt, &told, true, Ok(()));
    left(&rt, rt.alloc(), &told, &[3, 5, 5, 6]);
}

#[test]
fn a_full_device_refuses_a_push_and_asks_are_answered(rt: HostRuntime) {
    let keys = [1, 9];
    let queue = queue_of(&rt, rt.alloc(), &mut MemRack::new(), 175, 3, &keys);
    let lines = [line(0, 4); 20];
    let told = in_one(&rt, rt.alloc(), queue, 4, &lines, &[Ask::Pop; 2], &OpenGate);
    answered(&rt, &told.first, &[Some(pair(1)), None]);
    ended(&rt, &told, false, Err(QueueFault::NoFreeBlock));
    assert!(rt; told.size < 21);
}

#[test]
fn a_failed_block_ends_the_asks(rt: HostRuntime) {
    let calls = vec![in rt.alloc(); (4, 2u64)].expect(&rt, "no memory");
    let mut rack = MemRack::failing(calls, Vec::new(rt.alloc()));
    let keys = [7, 3, 5, 1, 6, 2, 4, 8, 9, 10, 11, 12];
    let queue = queue_of(&rt, rt.alloc(), &mut rack, 212, 40, &keys);
    let lines = [line(0, 13)];
    let told = in_one(
        &rt,
        rt.alloc(),
        queue,
        13,
        &lines,
        &[Ask::Pop; 12],
        &OpenGate,
    );
    answered(
        &rt,
        &told.first,
        &[1, 2, 3, 4, 5, 6, 7, 8].map(|key| Some(pair(key))),
    );
    ended(&rt, &told, false, Err(QueueFault::Device { number: 4 }));
}

#[test]
fn the_size_counts_pops_and_pushes_over_blocks_that_forge(rt: HostRuntime) {
    let keys = [6, 5, 4, 3, 2, 1];
    let mut rack = MemRack::forging(1);
    let queue = queue_of(&rt, rt.alloc(), &mut rack, 372, 200, &keys);
    let lines = [line(0, u64::MAX), line(1, u64::MAX), line(0, u64::MAX)];
    let asks = [Ask::Pop, Ask::Top, Ask::Pop];
    let told = in_one(&rt, rt.alloc(), queue, u64::MAX, &lines, &asks, &OpenGate);
    // Each of the three answers is a record, of which the pops removed two: 6 - 2 + 3.
    ended(&rt, &told, true, Ok(()));
    for answer in &told.first {
        assert!(rt; answer.is_some());
    }
    assert!(rt; (told.first.len() == 3) & (told.size == 7));
}
