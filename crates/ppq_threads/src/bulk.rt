//! A bulk session: each worker pushes into a pass of its own, on a thread of its own.
ghost use Rattle.std.specs.Prelude.{◌≡◌, All, IfOk};
ghost use Rattle.ppq_session.specs.ppq_pass.Passed.{IsOf};
ghost use Rattle.ppq_session.specs.BulkSession.{keys_of};

use crate::fault::Fault;
use ppq_device::OpenGate;
use ppq_session::{
    Host, Pair, Pass, Queue, SessionEnd, Shared, Slot, are_going, bulk_begin, bulk_end,
};
use std::alloc::Global;
use std::thread;

// How many events each worker pushes.
const EACH: u64 = 50_000;

// The event with this number: its time is the number mixed, below 2^40.
fn event_of(number: u64) -> Pair {
    let mixed = number.wrapping_mul(0x9E37_79B9_7F4A_7C15);
    Pair {
        key: (mixed ^ (mixed >> 29)) >> 24,
        value: number,
    }
}

// Pushes a worker's events into its pass, up to one that is refused.
fn fill<H: Host, S: Slot + Send + Sync>(
    rt: &H,
    shared: &Shared<S, Pair>,
    worker: u64,
    pass: &mut Pass<S, Pair>,
)
where
    H::Dir: Send,
    requires { IsOf shared.now pass.old }
    ensures { pass.new.key ≡ pass.old.key }
{
    'filling: for event in 0..EACH {
        let number = worker.wrapping_mul(EACH).wrapping_add(event);
        if pass.push(rt, shared, event_of(number)).is_err() {
            break;
        }
    }
}

// Fills all passes, each on a thread of its own. No thread waits for another, and none takes a lock.
fn fill_all<H: Host, S: Slot + Send + Sync>(
    rt: &H,
    shared: &Shared<S, Pair>,
    passes: &mut [Pass<S, Pair>],
)
where
    H::Dir: Send,
    requires { All (IsOf shared.now) passes.old }
    ensures { keys_of passes.new ≡ keys_of passes.old }
{
    thread::for_each_mut(
        rt,
        passes,
        4,
        &|worker, pass|
            requires { IsOf shared.now pass.now }
            ensures { pass.exit.now.key ≡ pass.entry.now.key }
        { fill(rt, shared, worker as u64, pass) },
    );
}

// Pushes the events of all workers into a queue, which has them once the session has ended.
pub(crate) fn push_by_threads<H: Host, S: Slot + Send + Sync>(
    rt: &H,
    alloc: Global,
    queue: Queue<S, Pair>,
) -> Result<Queue<S, Pair>, Fault>
where
    H::Dir: Send,
    ensures { IfOk result (λ filled. filled.sizes ≡ queue.sizes) }
{
    let (bulk, shared, mut passes) = match bulk_begin(rt, alloc, queue, &OpenGate) {
        Ok(begun) => begun,
        Err(_) => return Err(Fault::Session),
    };
    fill_all(rt, &shared, passes.as_mut_slice());
    let all = are_going(passes.as_slice());
    let (queue, end) = bulk_end(rt, bulk, shared, passes, &OpenGate);
    match end {
        SessionEnd::Whole if all => Ok(queue),
        _ => Err(Fault::Session),
    }
}
