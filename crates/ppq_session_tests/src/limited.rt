//! A limit session of a queue of pairs.
ghost use Rattle.std.specs.Prelude.{◌≡◌, ◌++◌, None, All, IfOk};
ghost use Rattle.ppq_outside.specs.Shown.{AllTell};
ghost use Rattle.ppq_session.specs.ppq_pass.Passed.{IsOf};
ghost use Rattle.ppq_session.specs.Fronts.{least_below};
ghost use Rattle.ppq_session.specs.LimitSession.{AreLimited, limited_bag};

use ppq_outside::{MemSlot, OpenGate};
use ppq_session::{
    Front, Host, LimitPass, Pair, Queue, QueueFault, Record, SessionEnd, Shared, Slot, limit_begin,
    limit_end, passes_stand_back,
};
use std::alloc::Global;
use std::process::Abort;
use std::thread;
use std::thread::join_mut;

/// When the front of a session gives records.
#[derive(Clone, Copy)]
pub enum Giving {
    /// While the passes add records by turns, each on a thread of its own.
    Meanwhile,
    /// After the first pass has added records, up to one that is refused.
    Then,
    /// Before that, where block 0 fails.
    Failing,
}

/// What a first pass did with the records that it was to add, up to one that was refused.
#[derive(Clone, Copy, PartialEq, Eq)]
pub struct Added {
    /// how many found room in the heap
    pub easy: u64,
    /// which was refused, and why
    pub refused: Option<(Pair, QueueFault)>,
}

/// What was done in a session.
#[derive(Clone, Copy, PartialEq, Eq)]
pub struct Done {
    /// how the session ended
    pub end: SessionEnd,
    /// what the first pass did alone
    pub added: Option<Added>,
    /// how many records the passes accepted together
    pub accepted: u64,
    /// whether a push was refused
    pub refused: bool,
}

/// A limit session of a queue, whose passes add records and whose front gives all that are below the limit: the
/// queue then, what the front gave, and what was done.
pub fn in_session<H: Host + Abort>(
    rt: &H,
    alloc: Global,
    queue: Queue<MemSlot, Pair>,
    limit: Pair,
    records: &[Pair],
    giving: Giving,
) -> (Queue<MemSlot, Pair>, Vec<Pair>, Done)
where
    H::Dir: Send,
{
    let (mut front, shared, mut passes) = match limit_begin(rt, alloc, queue, limit, &OpenGate) {
        Ok(begun) => begun,
        Err(_) => panic!(rt; "no session began"),
    };
    let mut given = Vec::new(alloc);
    let added = act(
        rt,
        &mut front,
        &shared,
        passes.as_mut_slice(),
        records,
        giving,
        &mut given,
    );
    let (accepted, refused) = tally(passes.as_slice());
    let (queue, end) = limit_end(rt, front, shared, passes, &OpenGate);
    let done = Done {
        end,
        added,
        accepted,
        refused,
    };
    (queue, given, done)
}

// Adds records to the passes of a session, and takes records out of its front.
fn act<H: Host + Abort>(
    rt: &H,
    front: &mut Front<MemSlot, Pair>,
    shared: &Shared<MemSlot, Pair>,
    passes: &mut [LimitPass<MemSlot, Pair>],
    records: &[Pair],
    giving: Giving,
    given: &mut Vec<Pair>,
) -> Option<Added>
where
    H::Dir: Send,
    requires limited { AreLimited front.old passes.old }
    requires of { All (λ p. IsOf shared.now p.pass) passes.old }
    ensures front { front.new ≡ record front.old { bag = front.new.bag; slots = front.new.slots; run_buffers = front.new.run_buffers; in_extract = front.new.in_extract; size = front.new.size; popped = front.new.popped; failed = front.new.failed } }
    ensures keys { (key : _) → All (λ p. p.pass.key ≡ key) passes.old → All (λ p. p.pass.key ≡ key) passes.new }
    ensures limits { (limit : _) → All (λ p. p.limit ≡ limit) passes.old → All (λ p. p.limit ≡ limit) passes.new }
{
    match giving {
        Giving::Meanwhile => {
            run(rt, front, shared, passes, records, given);
            None
        }
        Giving::Then => Some(take_turns(rt, front, shared, passes, records, given)),
        Giving::Failing => Some(fail_first(rt, front, shared, passes, records)),
    }
}

// Adds records to the passes of a session, and takes records out of its front meanwhile.
fn run<H: Host + Abort>(
    rt: &H,
    front: &mut Front<MemSlot, Pair>,
    shared: &Shared<MemSlot, Pair>,
    passes: &mut [LimitPass<MemSlot, Pair>],
    records: &[Pair],
    given: &mut Vec<Pair>,
)
where
    H::Dir: Send,
    requires { All (λ p. IsOf shared.now p.pass) passes.old }
    ensures front { front.new ≡ record front.old { bag = front.new.bag; slots = front.new.slots; run_buffers = front.new.run_buffers; in_extract = front.new.in_extract; size = front.new.size; popped = front.new.popped; failed = front.new.failed } }
    ensures keys { (key : _) → All (λ p. p.pass.key ≡ key) passes.old → All (λ p. p.pass.key ≡ key) passes.new }
    ensures limits { (limit : _) → All (λ p. p.limit ≡ limit) passes.old → All (λ p. p.limit ≡ limit) passes.new }
{
    let mut push = ||
        requires { All (λ p. IsOf shared.now p.pass) passes.now }
        ensures { ((key : _) → All (λ p. p.pass.key ≡ key) passes.entry.now → All (λ p. p.pass.key ≡ key) passes.exit.now) × ((limit : _) → All (λ p. p.limit ≡ limit) passes.entry.now → All (λ p. p.limit ≡ limit) passes.exit.now) }
    { push_all(rt, shared, records, passes) };
    let mut take = ||
        ensures { front.exit.now ≡ record front.entry.now { bag = front.exit.now.bag; slots = front.exit.now.slots; run_buffers = front.exit.now.run_buffers; in_extract = front.exit.now.in_extract; size = front.exit.now.size; popped = front.exit.now.popped; failed = front.exit.now.failed } }
    { take_all(rt, front, given) };
    join_mut(rt, &mut push, &mut take);
}

// Adds records to two passes by turns, each on a thread of its own.
fn push_all<H: Host + Abort>(
    rt: &H,
    shared: &Shared<MemSlot, Pair>,
    records: &[Pair],
    passes: &mut [LimitPass<MemSlot, Pair>],
)
where
    H::Dir: Send,
    requires { All (λ p. IsOf shared.now p.pass) passes.old }
    ensures keys { (key : _) → All (λ p. p.pass.key ≡ key) passes.old → All (λ p. p.pass.key ≡ key) passes.new }
    ensures limits { (limit : _) → All (λ p. p.limit ≡ limit) passes.old → All (λ p. p.limit ≡ limit) passes.new }
{
    thread::for_each_mut(
        rt,
        passes,
        2,
        &|worker, pass|
            requires { IsOf shared.now pass.now.pass }
            ensures { (pass.exit.now.pass.key ≡ pass.entry.now.pass.key) × (pass.exit.now.limit ≡ pass.entry.now.limit) }
        { push_half(rt, shared, records, worker, pass) },
    );
}

// Adds the records at every second place, from a pass's own on, up to the first that is refused.
fn push_half<H: Host + Abort>(
    rt: &H,
    shared: &Shared<MemSlot, Pair>,
    records: &[Pair],
    worker: usize,
    pass: &mut LimitPass<MemSlot, Pair>,
)
where
    H::Dir: Send,
    requires { IsOf shared.now pass.old.pass }
    ensures key { pass.new.pass.key ≡ pass.old.pass.key }
    ensures limit { pass.new.limit ≡ pass.old.limit }
{
    'pushing: for i in 0..records.len() {
        if i % 2 == worker {
            assert!(rt; !records[i].is_less(&pass.limit()));
            if pass.push(rt, shared, records[i]).is_err() {
                break;
            }
        }
    }
}

// Takes all records out that a front gives, at most 204,800, to the end of a list. Each is what the front showed.
fn take_all<H: Host + Abort>(rt: &H, front: &mut Front<MemSlot, Pair>, given: &mut Vec<Pair>)
where
    H::Dir: Send,
    ensures { front.new ≡ record front.old { bag = front.new.bag; slots = front.new.slots; run_buffers = front.new.run_buffers; in_extract = front.new.in_extract; size = front.new.size; popped = front.new.popped; failed = front.new.failed } }
{
    'taking: for _ in 0..204800 {
        let top = front.top(rt, &OpenGate);
        let first = front.pop(rt, &OpenGate);
        assert!(rt; top == first);
        let Some(record) = first.expect(rt, "a pop") else {
            break;
        };
        given.push(record).expect(rt, "room for a record");
    }
    assert!(rt; front.popped() == given.len() as u64);
}

// Adds records to the first pass, and takes records out of the front then.
fn take_turns<H: Host + Abort>(
    rt: &H,
    front: &mut Front<MemSlot, Pair>,
    shared: &Shared<MemSlot, Pair>,
    passes: &mut [LimitPass<MemSlot, Pair>],
    records: &[Pair],
    given: &mut Vec<Pair>,
) -> Added
where
    H::Dir: Send,
    requires limited { AreLimited front.old passes.old }
    requires of { All (λ p. IsOf shared.now p.pass) passes.old }
    ensures front { front.new ≡ record front.old { bag = front.new.bag; slots = front.new.slots; run_buffers = front.new.run_buffers; in_extract = front.new.in_extract; size = front.new.size; popped = front.new.popped; failed = front.new.failed } }
    ensures keys { (key : _) → All (λ p. p.pass.key ≡ key) passes.old → All (λ p. p.pass.key ≡ key) passes.new }
    ensures limits { (limit : _) → All (λ p. p.limit ≡ limit) passes.old → All (λ p. p.limit ≡ limit) passes.new }
{
    let added = add_to_first(rt, shared, passes, records);
    if let Some(least) = least_of_all(rt, front, passes).expect(rt, "a pop") {
        given.push(least).expect(rt, "room for a record");
    }
    take_all(rt, front, given);
    added
}

// Takes a record out of a front, which meets block 0, and adds records to the first pass then.
fn fail_first<H: Host + Abort>(
    rt: &H,
    front: &mut Front<MemSlot, Pair>,
    shared: &Shared<MemSlot, Pair>,
    passes: &mut [LimitPass<MemSlot, Pair>],
    records: &[Pair],
) -> Added
where
    H::Dir: Send,
    requires { All (λ p. IsOf shared.now p.pass) passes.old }
    ensures front { front.new ≡ record front.old { bag = front.new.bag; slots = front.new.slots; run_buffers = front.new.run_buffers; in_extract = front.new.in_extract; size = front.new.size; popped = front.new.popped; failed = front.new.failed } }
    ensures keys { (key : _) → All (λ p. p.pass.key ≡ key) passes.old → All (λ p. p.pass.key ≡ key) passes.new }
    ensures limits { (limit : _) → All (λ p. p.limit ≡ limit) passes.old → All (λ p. p.limit ≡ limit) passes.new }
{
    let fault = Err(QueueFault::Device { number: 0 });
    let popped = front.pop(rt, &OpenGate) == fault;
    let top = front.top(rt, &OpenGate) == fault;
    assert!(rt; popped & top & (front.popped() == 0));
    add_to_first(rt, shared, passes, records)
}

// Adds records to the first pass of a session.
fn add_to_first<H: Host + Abort>(
    rt: &H,
    shared: &Shared<MemSlot, Pair>,
    passes: &mut [LimitPass<MemSlot, Pair>],
    records: &[Pair],
) -> Added
where
    H::Dir: Send,
    requires { All (λ p. IsOf shared.now p.pass) passes.old }
    ensures keys { (key : _) → All (λ p. p.pass.key ≡ key) passes.old → All (λ p. p.pass.key ≡ key) passes.new }
    ensures limits { (limit : _) → All (λ p. p.limit ≡ limit) passes.old → All (λ p. p.limit ≡ limit) passes.new }
{
    assert!(rt; passes.len() > 0);
    add_all(rt, shared, &mut passes[0], records)
}

// Adds records to a pass, up to one that is refused.
fn add_all<H: Host + Abort>(
    rt: &H,
    shared: &Shared<MemSlot, Pair>,
    pass: &mut LimitPass<MemSlot, Pair>,
    records: &[Pair],
) -> Added
where
    H::Dir: Send,
    requires { IsOf shared.now pass.old.pass }
    ensures key { pass.new.pass.key ≡ pass.old.pass.key }
    ensures limit { pass.new.limit ≡ pass.old.limit }
{
    let mut added = Added {
        easy: 0,
        refused: None,
    };
    'adding: for r in records {
        match add(rt, shared, pass, *r) {
            Ok(easy) => added.easy = added.easy.saturating_add(u64::from(easy)),
            Err(refused) => {
                added.refused = Some(refused);
                break;
            }
        }
    }
    added
}

// Adds a record to a pass: whether its heap had room.
fn add<H: Host + Abort>(
    rt: &H,
    shared: &Shared<MemSlot, Pair>,
    pass: &mut LimitPass<MemSlot, Pair>,
    r: Pair,
) -> Result<bool, (Pair, QueueFault)>
where
    H::Dir: Send,
    requires { IsOf shared.now pass.old.pass }
    ensures key { pass.new.pass.key ≡ pass.old.pass.key }
    ensures limit { pass.new.limit ≡ pass.old.limit }
{
    assert!(rt; !r.is_less(&pass.limit()));
    if pass.try_push(r).is_ok() {
        return Ok(true);
    }
    pass.push(rt, shared, r)?;
    Ok(false)
}

// What a front gives is the smallest record of all, also of those of the passes.
fn least_of_all<H: Host, S: Slot + Send + Sync, R: Record + Send + Sync>(
    rt: &H,
    front: &mut Front<S, R>,
    passes: &[LimitPass<S, R>],
) -> Result<Option<R>, QueueFault>
where
    H::Dir: Send,
    requires { AreLimited front.old passes.now }
    ensures answer { IfOk result (λ answer. AllTell front.old.slots → All (λ p. p.pass.failed ≡ None) passes.now → answer ≡ least_below R.Ord.cmp front.old.limit (front.old.bag ++ limited_bag passes.now)) }
    ensures front { front.new ≡ record front.old { bag = front.new.bag; slots = front.new.slots; run_buffers = front.new.run_buffers; in_extract = front.new.in_extract; size = front.new.size; popped = front.new.popped; failed = front.new.failed } }
{
    passes_stand_back(front, passes);
    front.pop(rt, &OpenGate)
}

// How many records passes accepted together, and whether a push was refused.
fn tally(passes: &[LimitPass<MemSlot, Pair>]) -> (u64, bool) {
    let mut accepted = 0u64;
    let mut refused = false;
    for pass in passes {
        accepted = accepted.saturating_add(pass.accepted());
        refused = refused | pass.refused();
    }
    (accepted, refused)
}
