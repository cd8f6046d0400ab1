//! Records that threads add to a queue over a device file, each to a pass of a session.
ghost use Rattle.std.specs.Prelude.{◌≡◌, ◌<◌, All, IfOk, false};
ghost use Rattle.ppq_session.specs.ppq_pass.Passed.{IsOf};
ghost use Rattle.ppq_session.specs.ppq_pass.ppq_record.Order.{is_before};
ghost use Rattle.ppq_session.specs.ppq_pass.ppq_record.Pair.{pair_cmp};
ghost use Rattle.ppq_session.specs.BulkSession.{keys_of};
ghost use Rattle.ppq_session.specs.LimitSessions.{AreGoing};

use crate::device::{Shape, open, refused, sizes_for};
use crate::load::out_of_memory;
use crate::removed::Removed;
use crate::task::{Task, number_after, step_of};
use ppq_device::{Host, OpenGate, Out, Pair, Queue, QueueFault, Record, Sizes, Slot};
use ppq_session::{
    Ask, BeginFault, LimitSession, Line, Pass, SessionEnd, Shared, are_going, bulk_begin, bulk_end,
};
use std::alloc::Global;
use std::io::ErrorKind;
use std::{io, thread};

// The limit of a limit session: half of all keys are below it.
const LIMIT: Pair = Pair {
    key: 1 << 63,
    value: 0,
};

// How many records below the limit are taken at once.
const ASKS: usize = 16384;

// More batches than 2^32 records make.
const BATCHES: u32 = 1_000_000;

// A session that did not begin, as an error.
fn not_begun(fault: BeginFault) -> io::Error {
    match fault {
        BeginFault::Memory => out_of_memory(),
        BeginFault::NoFreeBlock => refused(QueueFault::NoFreeBlock),
        BeginFault::Device { number } => refused(QueueFault::Device { number }),
    }
}

// Adds a worker's own records of a task to its pass, up to one that is refused.
fn fill<H: Host, S: Slot + Send + Sync>(
    rt: &H,
    shared: &Shared<S, Pair>,
    task: Task,
    worker: u64,
    pass: &mut Pass<S, Pair>,
)
where
    H::Dir: Send,
    requires { IsOf shared.now pass.old }
    ensures { pass.new.key ≡ pass.old.key }
{
    let from = task.before(worker);
    let end = task.before(worker.saturating_add(1));
    let mut number = number_after(task.seed, from);
    'filling: for value in from..end {
        number = step_of(number);
        let item = Pair { key: number, value };
        if pass.push(rt, shared, item).is_err() {
            break;
        }
    }
}

// Fills all passes, each on a thread of its own.
fn fill_all<H: Host, S: Slot + Send + Sync>(
    rt: &H,
    shared: &Shared<S, Pair>,
    task: Task,
    passes: &mut [Pass<S, Pair>],
)
where
    H::Dir: Send,
    requires { All (IsOf shared.now) passes.old }
    ensures { keys_of passes.new ≡ keys_of passes.old }
{
    let threads = passes.len().max(1);
    thread::for_each_mut(
        rt,
        passes,
        threads,
        &|worker, pass|
            requires { IsOf shared.now pass.now }
            ensures { pass.exit.now.key ≡ pass.entry.now.key }
        { fill(rt, shared, task, worker as u64, pass) },
    );
}

// Adds the records of a task to a queue in a bulk session.
fn push_by_threads<H: Host, S: Slot + Send + Sync>(
    rt: &H,
    alloc: Global,
    queue: Queue<S, Pair>,
    task: Task,
) -> io::Result<Queue<S, Pair>>
where
    H::Dir: Send,
    ensures { IfOk result (λ filled. filled.sizes ≡ queue.sizes) }
{
    let (bulk, shared, mut passes) = match bulk_begin(rt, alloc, queue, &OpenGate) {
        Ok(begun) => begun,
        Err((_, fault)) => return Err(not_begun(fault)),
    };
    fill_all(rt, &shared, task, passes.as_mut_slice());
    let all = are_going(passes.as_slice());
    let (queue, end) = bulk_end(rt, bulk, shared, passes, &OpenGate);
    match end {
        SessionEnd::Stopped(fault) => Err(refused(fault)),
        SessionEnd::Whole if all => Ok(queue),
        SessionEnd::Whole => Err(refused(QueueFault::NoFreeBlock)),
    }
}

// Removes all records by bulk pops.
fn drain<H: Host, S: Slot + Send + Sync>(
    rt: &H,
    alloc: Global,
    queue: Queue<S, Pair>,
    sizes: Sizes,
) -> io::Result<Removed>
where
    H::Dir: Send,
    requires { queue.sizes ≡ sizes }
{
    let mut queue = queue;
    let mut out = Out::new(alloc, &sizes).map_err(|_| out_of_memory())?;
    let mut removed = Removed::none();
    'rounds: for _round in 0..queue.size() {
        let left = queue.size();
        match queue.bulk_pop(rt, left, &mut out, &OpenGate) {
            Ok(0) => break,
            Ok(_) => removed = removed.with_all(out.as_slice()),
            Err(fault) => return Err(refused(fault)),
        }
    }
    Ok(removed)
}

// Adds the records of a task to a queue over a device file in a bulk session, and then removes them all.
pub(crate) fn fill_and_drain<H: Host>(
    rt: &H,
    alloc: Global,
    shape: Shape,
    task: Task,
    device: &str,
) -> io::Result<Removed>
where
    H::Dir: Send,
{
    let sizes = sizes_for(shape, task.count, task.workers)?;
    let queue = open(rt, alloc, device, sizes)?;
    let queue = push_by_threads(rt, alloc, queue, task)?;
    drain(rt, alloc, queue, sizes)
}

// The pass, of so many, that a record is added by.
fn pass_of(item: Pair, workers: u32) -> u32
    requires { 0 < workers }
    ensures { result < workers }
{
    (item.value % u64::from(workers)) as u32
}

// The records that these make: each a later one, not below the limit. None is made by an answer without a record.
fn followers(
    alloc: Global,
    taken: &[Option<Pair>],
    limit: Pair,
    workers: u32,
) -> io::Result<Vec<Line<Pair>>>
    requires { 0 < workers }
    ensures named { IfOk result (λ lines. All (λ line. line.pass < workers) lines.items) }
    ensures above { IfOk result (λ lines. All (λ line. is_before pair_cmp line.record limit ≡ false) lines.items) }
{
    let mut lines = Vec::with_capacity(alloc, taken.len())?;
    'following: for i in 0..taken.len() {
        if let Some(item) = taken[i] {
            let record = Pair {
                key: item.key.saturating_add(limit.key),
                value: item.value,
            };
            if !record.is_less(&limit) {
                let pass = pass_of(record, workers);
                lines.push(Line { pass, record })?;
            }
        }
    }
    Ok(lines)
}

// A batch of a session: threads add these lines, and beside them as many records are taken as are asked for.
fn run_batch<H: Host, S: Slot + Send + Sync>(
    rt: &H,
    alloc: Global,
    session: &mut LimitSession<S, Pair>,
    lines: &[Line<Pair>],
    asks: &[Ask],
) -> io::Result<Vec<Option<Pair>>>
where
    H::Dir: Send,
    requires named { All (λ line. line.pass < session.old.front.sizes.workers) lines.now }
    requires above { All (λ line. is_before pair_cmp line.record session.old.front.limit ≡ false) lines.now }
    requires going { AreGoing session.old }
    ensures going { IfOk result (λ answers. AreGoing session.new) }
    ensures sizes { IfOk result (λ answers. session.new.front.sizes ≡ session.old.front.sizes) }
    ensures limit { IfOk result (λ answers. session.new.front.limit ≡ session.old.front.limit) }
{
    let mut answers = Vec::with_capacity(alloc, asks.len())?;
    if session.run(rt, lines, asks, &mut answers, &OpenGate) {
        Ok(answers)
    } else {
        Err(io::Error::from(ErrorKind::Other))
    }
}

// Takes all records below the limit, in batches: while one is taken, threads add what the batch before it made.
fn take_all<H: Host, S: Slot + Send + Sync>(
    rt: &H,
    alloc: Global,
    session: &mut LimitSession<S, Pair>,
    limit: Pair,
    workers: u32,
) -> io::Result<Removed>
where
    H::Dir: Send,
    requires some { 0 < workers }
    requires workers { session.old.front.sizes.workers ≡ workers }
    requires limit { session.old.front.limit ≡ limit }
    requires going { AreGoing session.old }
{
    let asks = vec![in alloc; Ask::Pop; ASKS]?;
    let mut lines = Vec::new(alloc);
    let mut removed = Removed::none();
    'batches: for _batch in 0..BATCHES {
        let answers = run_batch(rt, alloc, session, lines.as_slice(), asks.as_slice())?;
        removed = removed.with_answers(answers.as_slice());
        lines = followers(alloc, answers.as_slice(), limit, workers)?;
        if lines.is_empty() {
            return Ok(removed);
        }
    }
    Err(io::Error::from(ErrorKind::Other))
}

// Takes all records of a queue that are below the limit, in a limit session, and adds those that they make.
fn take_below<H: Host, S: Slot + Send + Sync>(
    rt: &H,
    alloc: Global,
    queue: Queue<S, Pair>,
    sizes: Sizes,
) -> io::Result<(Queue<S, Pair>, Removed)>
where
    H::Dir: Send,
    requires { queue.sizes ≡ sizes }
{
    let mut session = match LimitSession::begin(rt, alloc, queue, LIMIT, &OpenGate) {
        Ok(session) => session,
        Err((_, fault)) => return Err(not_begun(fault)),
    };
    let taken = take_all(rt, alloc, &mut session, LIMIT, sizes.workers());
    let (queue, end) = session.end(rt, &OpenGate);
    let removed = taken?;
    match end {
        Ok(()) => Ok((queue, removed)),
        Err(fault) => Err(refused(fault)),
    }
}

// What was removed, and then all records of a queue, one by one.
fn pop_all<H: Host, S: Slot + Send + Sync>(
    rt: &H,
    queue: Queue<S, Pair>,
    before: Removed,
) -> io::Result<Removed>
where
    H::Dir: Send,
{
    let mut queue = queue;
    let mut removed = before;
    for _record in 0..queue.size() {
        match queue.pop(rt, &OpenGate) {
            Ok(Some(item)) => removed = removed.with(item),
            Ok(None) => break,
            Err(fault) => return Err(refused(fault)),
        }
    }
    Ok(removed)
}

// Adds the records of a task to a queue over a device file in a bulk session, takes those below the limit in a limit
// session, and then removes the rest. A record that is taken counts against the device until its session ends.
pub(crate) fn take_below_and_drain<H: Host>(
    rt: &H,
    alloc: Global,
    shape: Shape,
    task: Task,
    device: &str,
) -> io::Result<Removed>
where
    H::Dir: Send,
{
    let sizes = sizes_for(shape, task.count.saturating_mul(2), task.workers)?;
    let queue = open(rt, alloc, device, sizes)?;
    let queue = push_by_threads(rt, alloc, queue, task)?;
    let (queue, removed) = take_below(rt, alloc, queue, sizes)?;
    pop_all(rt, queue, removed)
}
