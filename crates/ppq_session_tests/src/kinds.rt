//! Limit sessions of two workers, with two records a block and one block a heap: of triples, and of records of which
//! the greatest comes first.
ghost use Rattle.std.specs.Prelude.{◌≡◌, ◌<◌, false, All, IsTrue, IfOk};
ghost use Rattle.ppq_record.specs.Order.{is_before};
ghost use Rattle.ppq_session.specs.Batches.{AreAbove};
ghost use Rattle.ppq_session.specs.LimitSessions.{AreGoing};

use crate::records::popped;
use ppq_outside::{MemRack, MemSlot, OpenGate};
use ppq_record::{Down, Pair, Record, Triple};
use ppq_session::{Ask, Host, LimitSession, Line, Queue, Sizes};
use ppq_testkit::{blocks_of, pair, pushed, triple};
use std::alloc::Global;
use std::process::Abort;
use std::test::Fail;

// A queue of two workers to which these records were pushed.
fn filled<H: Host + Abort, R: Record + Send + Sync>(
    rt: &H,
    alloc: Global,
    records: &[R],
) -> Result<Queue<MemSlot, R>, Fail>
where
    H::Dir: Send,
    ensures { IfOk result (λ queue. queue.sizes.workers ≡ 2) }
{
    let sizes = Sizes::new(2, 2, 1, 372, 40).expect(rt, "sizes in range");
    let slots = blocks_of::<H, R>(rt, alloc, &mut MemRack::new(), sizes)?;
    let Ok(queue) = Queue::open(alloc, sizes, slots) else {
        return Err(Fail::from("the queue was not opened"));
    };
    let queue = pushed(rt, queue, records)?;
    Ok(queue)
}

// A limit session of a queue of two workers.
fn begun<H: Host + Abort, R: Record + Send + Sync>(
    rt: &H,
    alloc: Global,
    queue: Queue<MemSlot, R>,
    limit: R,
) -> LimitSession<MemSlot, R>
where
    H::Dir: Send,
    requires { queue.sizes.workers ≡ 2 }
    ensures workers { result.front.sizes.workers ≡ 2 }
    ensures limit { result.front.limit ≡ limit }
    ensures going { AreGoing result }
{
    match LimitSession::begin(rt, alloc, queue, limit, &OpenGate) {
        Ok(session) => session,
        Err(_) => panic!(rt; "no session began"),
    }
}

// Whether a line is for one of two passes, and its record not below the limit.
fn is_fit<R: Record>(line: Line<R>, limit: R) -> bool
    ensures named { IsTrue result → line.pass < 2 }
    ensures above { IsTrue result → is_before R.Ord.cmp line.record limit ≡ false }
{
    line.pass < 2 && !line.record.is_less(&limit)
}

// Whether all lines are.
fn are_fit<R: Record>(lines: &[Line<R>], limit: R) -> bool
    ensures named { IsTrue result → All (λ line. line.pass < 2) lines.now }
    ensures above { IsTrue result → AreAbove R.Ord.cmp limit lines.now }
{
    for i in 0..lines.len() {
        if !is_fit(lines[i], limit) {
            return false;
        }
    }
    true
}

// What is done in a session, and what comes of it.
#[derive(Drop)]
struct Case<'a, R> {
    // the smallest record that may be pushed
    limit: R,
    // records for two passes
    lines: &'a [Line<R>],
    // what is asked meanwhile, and the answers
    asks: &'a [Ask],
    answers: &'a [Option<R>],
    // the records of the queue after it, in order
    left: &'a [R],
}

// Pushes the lines, and asks meanwhile.
fn run<H: Host + Abort, R: Record + Send + Sync>(
    rt: &H,
    alloc: Global,
    session: &mut LimitSession<MemSlot, R>,
    case: &Case<'_, R>,
) -> Vec<Option<R>>
where
    H::Dir: Send,
    requires workers { session.old.front.sizes.workers ≡ 2 }
    requires limit { session.old.front.limit ≡ case.now.limit }
    requires going { AreGoing session.old }
{
    let lines = case.lines;
    let asks = case.asks;
    assert!(rt; are_fit(lines, case.limit));
    let mut answers = Vec::with_capacity(alloc, asks.len()).expect(rt, "room for the answers");
    let all = session.run(rt, lines, asks, &mut answers, &OpenGate);
    assert!(rt; all);
    answers
}

// A session of a queue with these records comes out as the case says.
fn comes_out<H: Host + Abort, R: Record + Send + Sync>(
    rt: &H,
    alloc: Global,
    records: &[R],
    case: &Case<'_, R>,
) -> Result<(), Fail>
where
    H::Dir: Send,
{
    let queue = filled(rt, alloc, records)?;
    let mut session = begun(rt, alloc, queue, case.limit);
    let answers = run(rt, alloc, &mut session, case);
    let (queue, end) = session.end(rt, &OpenGate);
    let left = popped(rt, alloc, queue);
    assert!(rt; end.is_ok());
    assert!(rt; answers.as_slice() == case.answers);
    assert!(rt; left.as_slice() == case.left);
    Ok(())
}

// A line with this record for a pass.
fn line<R>(pass: u32, record: R) -> Line<R> {
    Line { pass, record }
}

// The pair of this key, in the opposite order.
fn down(key: u64) -> Down<Pair> {
    Down { item: pair(key) }
}

// The triple of these numbers, in the opposite order.
fn last(time: u64, target: u64, word: u64) -> Down<Triple> {
    Down {
        item: triple(time, target, word),
    }
}

#[test]
fn triples_come_by_time_and_then_by_target_and_word(rt: HostRuntime) -> Result<(), Fail> {
    let records = [
        triple(3, 0, 0),
        triple(1, 2, 0),
        triple(1, 1, 2),
        triple(2, 0, 1),
        triple(1, 1, 1),
    ];
    let case = Case {
        limit: triple(2, 0, 0),
        lines: &[line(0, triple(2, 5, 0)), line(1, triple(2, 0, 0))],
        asks: &[Ask::Top, Ask::Pop, Ask::Pop, Ask::Pop, Ask::Pop],
        answers: &[
            Some(triple(1, 1, 1)),
            Some(triple(1, 1, 1)),
            Some(triple(1, 1, 2)),
            Some(triple(1, 2, 0)),
            None,
        ],
        left: &[
            triple(2, 0, 0),
            triple(2, 0, 1),
            triple(2, 5, 0),
            triple(3, 0, 0),
        ],
    };
    comes_out(&rt, rt.alloc(), &records, &case)
}

#[test]
fn of_pairs_in_the_opposite_order_the_greatest_come_first(rt: HostRuntime) -> Result<(), Fail> {
    let records = [down(1), down(9), down(4), down(7), down(2), down(8)];
    let case = Case {
        limit: down(5),
        lines: &[line(0, down(3)), line(1, down(5))],
        asks: &[Ask::Pop, Ask::Pop, Ask::Top, Ask::Pop, Ask::Top],
        answers: &[
            Some(down(9)),
            Some(down(8)),
            Some(down(7)),
            Some(down(7)),
            None,
        ],
        left: &[down(5), down(4), down(3), down(2), down(1)],
    };
    comes_out(&rt, rt.alloc(), &records, &case)
}

#[test]
fn triples_in_the_opposite_order_are_held_as_often_as_they_came(
    rt: HostRuntime,
) -> Result<(), Fail> {
    let records = [last(1, 1, 1), last(1, 1, 3), last(0, 9, 9), last(1, 1, 3)];
    let case = Case {
        limit: last(1, 1, 1),
        lines: &[line(1, last(1, 1, 0)), line(0, last(1, 1, 1))],
        asks: &[Ask::Pop, Ask::Pop, Ask::Pop],
        answers: &[Some(last(1, 1, 3)), Some(last(1, 1, 3)), None],
        left: &[last(1, 1, 1), last(1, 1, 1), last(1, 1, 0), last(0, 9, 9)],
    };
    comes_out(&rt, rt.alloc(), &records, &case)
}
