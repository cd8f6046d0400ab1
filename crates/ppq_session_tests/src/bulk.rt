//! A bulk session of a queue of pairs.
ghost use Rattle.std.specs.Prelude.{◌≡◌, ◌<◌, All};
ghost use Rattle.ppq_session.specs.ppq_pass.Passed.{IsOf};
ghost use Rattle.ppq_session.specs.BulkSession.{keys_of};

use crate::threads::push_hundreds;
use ppq_outside::{Gate, MemSlot, OpenGate};
use ppq_session::{
    Full, Host, Line, Pair, Pass, Queue, QueueFault, SessionEnd, Shared, are_going, bulk_begin,
    bulk_end, push_lines,
};
use ppq_testkit::pair;
use std::alloc::Global;
use std::process::Abort;

/// What is added to the passes of a session.
#[derive(Clone, Copy)]
pub enum Adding {
    /// the lines, to two passes
    Lines,
    /// a hundred records to each of two passes, on threads of the test's own
    Hundreds,
    /// three records to a single pass without a device, whose heap has room for two
    Three,
    /// records to each of three passes until its heap is full, for which it takes three, two and one
    Fill,
    /// three records to the second of two passes, where block 0 fails, and then to the first, where block 1 does
    Faulty,
}

/// What the passes of a session did.
#[derive(Clone, Copy, PartialEq, Eq)]
pub struct Done {
    /// whether all lines were taken
    pub taken: bool,
    /// how many records the first pass and the last accepted
    pub accepted: (u64, u64),
}

/// A session of a queue, to whose passes records are added: the queue then, how the session ended, and what
/// its passes did.
pub fn in_session<H: Host + Abort>(
    rt: &H,
    alloc: Global,
    queue: Queue<MemSlot, Pair>,
    adding: Adding,
    lines: &[Line<Pair>],
) -> (Queue<MemSlot, Pair>, SessionEnd, Done)
where
    H::Dir: Send,
    requires { All (λ line. line.pass < 2) lines.now }
    ensures { result.0.sizes ≡ queue.sizes }
{
    ended_by(rt, alloc, queue, adding, lines, &OpenGate)
}

/// The same, where the workers of the session's end enter this gate.
pub fn ended_by<H: Host + Abort, G: Gate>(
    rt: &H,
    alloc: Global,
    queue: Queue<MemSlot, Pair>,
    adding: Adding,
    lines: &[Line<Pair>],
    gate: &G,
) -> (Queue<MemSlot, Pair>, SessionEnd, Done)
where
    H::Dir: Send,
    requires { All (λ line. line.pass < 2) lines.now }
    ensures { result.0.sizes ≡ queue.sizes }
{
    let (bulk, shared, mut passes) = match bulk_begin(rt, alloc, queue, &OpenGate) {
        Ok(begun) => begun,
        Err(_) => panic!(rt; "no session began"),
    };
    let done = add(rt, &shared, adding, lines, passes.as_mut_slice());
    let (queue, end) = bulk_end(rt, bulk, shared, passes, gate);
    (queue, end, done)
}

// Adds records to the passes of a session.
fn add<H: Host + Abort>(
    rt: &H,
    shared: &Shared<MemSlot, Pair>,
    adding: Adding,
    lines: &[Line<Pair>],
    passes: &mut [Pass<MemSlot, Pair>],
) -> Done
where
    H::Dir: Send,
    requires lines { All (λ line. line.pass < 2) lines.now }
    requires of { All (IsOf shared.now) passes.old }
    ensures { keys_of passes.new ≡ keys_of passes.old }
{
    match adding {
        Adding::Lines => push_to_two(rt, shared, lines, passes),
        Adding::Hundreds => push_hundreds(rt, shared, passes),
        Adding::Three => push_to_one(rt, shared, passes),
        Adding::Fill => fill_three(rt, passes),
        Adding::Faulty => push_to_failed(rt, shared, passes),
    }
}

// Pushes lines to two passes that go on.
fn push_to_two<H: Host + Abort>(
    rt: &H,
    shared: &Shared<MemSlot, Pair>,
    lines: &[Line<Pair>],
    passes: &mut [Pass<MemSlot, Pair>],
) -> Done
where
    H::Dir: Send,
    requires lines { All (λ line. line.pass < 2) lines.now }
    requires of { All (IsOf shared.now) passes.old }
    ensures { keys_of passes.new ≡ keys_of passes.old }
{
    assert!(rt; passes.len() == 2);
    assert!(rt; are_going(passes));
    let taken = push_lines(rt, &OpenGate, shared, lines, passes);
    Done {
        taken,
        accepted: (passes[0].accepted(), passes[1].accepted()),
    }
}

// Pushes records to the only pass of a session without a device.
fn push_to_one<H: Host + Abort>(
    rt: &H,
    shared: &Shared<MemSlot, Pair>,
    passes: &mut [Pass<MemSlot, Pair>],
) -> Done
where
    H::Dir: Send,
    requires { All (IsOf shared.now) passes.old }
    ensures { keys_of passes.new ≡ keys_of passes.old }
{
    assert!(rt; passes.len() == 1);
    push_three(rt, shared, &mut passes[0])
}

// The heap of a pass has room for two records, and there is no block for the third.
fn push_three<H: Host + Abort>(
    rt: &H,
    shared: &Shared<MemSlot, Pair>,
    pass: &mut Pass<MemSlot, Pair>,
) -> Done
where
    H::Dir: Send,
    requires { IsOf shared.now pass.old }
    ensures { pass.new.key ≡ pass.old.key }
{
    let tried = (tries(pass, 1), tries(pass, 2), tries(pass, 3));
    let pushed = pass.push(rt, shared, pair(3)) == Err((pair(3), QueueFault::NoFreeBlock));
    assert!(rt; pushed & pass.refused() & (tried == (Ok(()), Ok(()), Err(Full))));
    Done {
        taken: false,
        accepted: (pass.accepted(), pass.accepted()),
    }
}

// The heaps of three passes have room for three records, two and one.
fn fill_three<H: Host + Abort>(rt: &H, passes: &mut [Pass<MemSlot, Pair>]) -> Done
    ensures { keys_of passes.new ≡ keys_of passes.old }
{
    assert!(rt; passes.len() == 3);
    let took = (
        fill(&mut passes[0]),
        fill(&mut passes[1]),
        fill(&mut passes[2]),
    );
    assert!(rt; took == (3, 2, 1));
    Done {
        taken: false,
        accepted: (took.0, took.2),
    }
}

// Tries records at a new pass until its heap, of at most four records, is full. How many it took.
fn fill(pass: &mut Pass<MemSlot, Pair>) -> u64
    ensures { pass.new.key ≡ pass.old.key }
{
    'filling: for key in 0..5 {
        if tries(pass, key) == Err(Full) {
            break;
        }
    }
    pass.accepted()
}

// Two passes meet a failed block each, the second one first.
fn push_to_failed<H: Host + Abort>(
    rt: &H,
    shared: &Shared<MemSlot, Pair>,
    passes: &mut [Pass<MemSlot, Pair>],
) -> Done
where
    H::Dir: Send,
    requires { All (IsOf shared.now) passes.old }
    ensures { keys_of passes.new ≡ keys_of passes.old }
{
    assert!(rt; passes.len() == 2);
    let second = meets_fault(rt, shared, &mut passes[1], 0);
    let first = meets_fault(rt, shared, &mut passes[0], 1);
    assert!(rt; first & second);
    Done {
        taken: false,
        accepted: (passes[0].accepted(), passes[1].accepted()),
    }
}

// Whether the third record of a pass meets this block, which is named from then on, while the heap stays full.
fn meets_fault<H: Host + Abort>(
    rt: &H,
    shared: &Shared<MemSlot, Pair>,
    pass: &mut Pass<MemSlot, Pair>,
    number: u32,
) -> bool
where
    H::Dir: Send,
    requires { IsOf shared.now pass.old }
    ensures { pass.new.key ≡ pass.old.key }
{
    let fault = QueueFault::Device { number };
    let tried = (tries(pass, 1), tries(pass, 2), tries(pass, 3));
    let pushed = pass.push(rt, shared, pair(3)) == Err((pair(3), fault));
    let again = pass.push(rt, shared, pair(4)) == Err((pair(4), fault));
    let full = tries(pass, 5) == Err(Full);
    pushed & again & full & (tried == (Ok(()), Ok(()), Err(Full)))
}

// Tries a record at a pass.
fn tries(pass: &mut Pass<MemSlot, Pair>, key: u64) -> Result<(), Full>
    ensures { pass.new.key ≡ pass.old.key }
{
    pass.try_push(pair(key))
}
