//! Sessions as one value, of records that are no pairs.
ghost use Rattle.std.specs.Prelude.{◌≡◌};

use crate::Short;
use ppq_outside::{MemSlot, OpenGate};
use ppq_session::{Host, LimitSession, Line, Queue, Session, Sizes};
use std::alloc::Global;
use std::process::Abort;

// An empty queue of one worker without a device, whose heap has room for two records.
fn empty<H: Host + Abort>(rt: &H, alloc: Global) -> Queue<MemSlot, Short>
    ensures { result.sizes.workers ≡ 1 }
{
    let sizes = match Sizes::new(1, 2, 1, 158, 0) {
        Some(sizes) => sizes,
        None => panic!(rt; "sizes in range"),
    };
    match Queue::open(alloc, sizes, Vec::new(alloc)) {
        Ok(queue) => queue,
        Err(_) => panic!(rt; "the queue was not opened"),
    }
}

// A line of the first pass.
fn line(value: u8) -> Line<Short>
    ensures { result.pass ≡ 0 }
{
    Line {
        pass: 0,
        record: Short { value },
    }
}

// The next record of a queue.
fn next<H: Host + Abort>(rt: &H, queue: &mut Queue<MemSlot, Short>) -> Option<Short>
where
    H::Dir: Send,
{
    queue.pop(rt, &OpenGate).expect(rt, "a pop")
}

// Two records that were pushed in a session come out in order.
fn bulk_session<H: Host + Abort>(rt: &H, alloc: Global)
where
    H::Dir: Send,
{
    let mut session = match Session::begin(rt, alloc, empty(rt, alloc), &OpenGate) {
        Ok(session) => session,
        Err(_) => panic!(rt; "no session began"),
    };
    let all = session.push(rt, &[line(9), line(4)], &OpenGate);
    let (mut queue, end) = session.end(rt, &OpenGate);
    let first = next(rt, &mut queue);
    let second = next(rt, &mut queue);
    let third = next(rt, &mut queue);
    let _slots = queue.close();
    assert!(rt; all & end.is_ok());
    assert!(rt;
        (first == Some(Short { value: 4 })) & (second == Some(Short { value: 9 })) & third.is_none()
    );
}

// A limit session of a queue without records leaves it without records.
fn limit_session<H: Host + Abort>(rt: &H, alloc: Global)
where
    H::Dir: Send,
{
    let limit = Short { value: 5 };
    let session = match LimitSession::begin(rt, alloc, empty(rt, alloc), limit, &OpenGate) {
        Ok(session) => session,
        Err(_) => panic!(rt; "no session began"),
    };
    let (mut queue, end) = session.end(rt, &OpenGate);
    let first = next(rt, &mut queue);
    let _slots = queue.close();
    assert!(rt; end.is_ok() & first.is_none());
}

#[test]
fn a_session_takes_records_that_are_no_pairs(rt: HostRuntime) {
    bulk_session(&rt, rt.alloc());
    limit_session(&rt, rt.alloc());
}
