//! A limit session: the owner takes the events below a horizon, while threads push the later ones that they make.
ghost use Rattle.std.specs.Prelude.{◌≡◌, ◌<◌, All, IfOk, false};
ghost use Rattle.ppq_session.specs.ppq_pass.ppq_record.Order.{is_before};
ghost use Rattle.ppq_session.specs.ppq_pass.ppq_record.Pair.{pair_cmp};
ghost use Rattle.ppq_session.specs.LimitSessions.{AreGoing};

use crate::fault::Fault;
use crate::seen::Seen;
use ppq_device::OpenGate;
use ppq_session::{Ask, Host, LimitSession, Line, Pair, Queue, Record, Slot};
use std::alloc::{AllocError, Global};

// How many events are taken at once.
const ASKS: usize = 4096;

// More batches than any run of this program has.
const BATCHES: u64 = 1_000_000;

// The events that these make: each a later one, not below the limit, for the pass that its number names. None is made
// by an answer without an event.
fn followers(
    alloc: Global,
    taken: &[Option<Pair>],
    limit: Pair,
) -> Result<Vec<Line<Pair>>, AllocError>
    ensures named { IfOk result (λ lines. All (λ line. line.pass < 4) lines.items) }
    ensures above { IfOk result (λ lines. All (λ line. is_before pair_cmp line.record limit ≡ false) lines.items) }
{
    let mut lines = Vec::new(alloc);
    'following: for i in 0..taken.len() {
        if let Some(event) = taken[i] {
            let record = Pair {
                key: event.key.saturating_add(limit.key),
                value: event.value,
            };
            if !record.is_less(&limit) {
                let pass = (event.value % 4) as u32;
                lines.push(Line { pass, record })?;
            }
        }
    }
    Ok(lines)
}

// A batch of a session: threads push these lines, and beside them as many events are taken as are asked for.
fn run_batch<H: Host, S: Slot + Send + Sync>(
    rt: &H,
    alloc: Global,
    session: &mut LimitSession<S, Pair>,
    lines: &[Line<Pair>],
    asks: &[Ask],
) -> Result<Vec<Option<Pair>>, Fault>
where
    H::Dir: Send,
    requires named { All (λ line. line.pass < session.old.front.sizes.workers) lines.now }
    requires above { All (λ line. is_before pair_cmp line.record session.old.front.limit ≡ false) lines.now }
    requires going { AreGoing session.old }
    ensures going { IfOk result (λ answers. AreGoing session.new) }
    ensures sizes { IfOk result (λ answers. session.new.front.sizes ≡ session.old.front.sizes) }
    ensures limit { IfOk result (λ answers. session.new.front.limit ≡ session.old.front.limit) }
{
    let mut answers = Vec::with_capacity(alloc, asks.len())?;
    if session.run(rt, lines, asks, &mut answers, &OpenGate) {
        Ok(answers)
    } else {
        Err(Fault::Session)
    }
}

// Takes all events below the limit, in batches: while one is taken, threads push what the batch before it made.
fn take_all<H: Host, S: Slot + Send + Sync>(
    rt: &H,
    alloc: Global,
    session: &mut LimitSession<S, Pair>,
    limit: Pair,
    seen: &mut Seen,
) -> Result<(), Fault>
where
    H::Dir: Send,
    requires workers { session.old.front.sizes.workers ≡ 4 }
    requires limit { session.old.front.limit ≡ limit }
    requires going { AreGoing session.old }
{
    let asks = vec![in alloc; Ask::Pop; ASKS]?;
    let mut lines = Vec::new(alloc);
    'batches: for _batch in 0..BATCHES {
        let answers = run_batch(rt, alloc, session, lines.as_slice(), asks.as_slice())?;
        seen.add_all(answers.as_slice());
        lines = followers(alloc, answers.as_slice(), limit)?;
        if lines.is_empty() {
            break;
        }
    }
    if lines.is_empty() {
        Ok(())
    } else {
        Err(Fault::Session)
    }
}

// Takes all events of a queue that are below a horizon, and adds those that they make.
pub(crate) fn take_below<H: Host, S: Slot + Send + Sync>(
    rt: &H,
    alloc: Global,
    queue: Queue<S, Pair>,
    horizon: u64,
) -> Result<(Queue<S, Pair>, Seen), Fault>
where
    H::Dir: Send,
    requires { queue.sizes.workers ≡ 4 }
{
    let limit = Pair {
        key: horizon,
        value: 0,
    };
    let mut session = match LimitSession::begin(rt, alloc, queue, limit, &OpenGate) {
        Ok(session) => session,
        Err(_) => return Err(Fault::Session),
    };
    let mut seen = Seen::none();
    let taken = take_all(rt, alloc, &mut session, limit, &mut seen);
    let (queue, end) = session.end(rt, &OpenGate);
    taken?;
    match end {
        Ok(()) => Ok((queue, seen)),
        Err(_) => Err(Fault::Session),
    }
}
