//! Taking records while the next blocks are read.
ghost use Rattle.std.specs.Prelude.{◌≡◌, ◌≤◌, ◌<◌, ◌+◌, ◌^◌, [], ◌∷◌, length, All, IfSome, IfNone};
ghost use Rattle.std.specs.List.{AllZip};
ghost use Rattle.ppq_array.specs.Holdings.{external_buffers};
ghost use Rattle.ppq_lane.specs.Jobs.{MayRun, IsDone};
ghost use Rattle.ppq_fetch.specs.Steps.{SameRoom, MayMergeParts, MergesSafe};
ghost use Rattle.ppq_fetch.specs.Fetching.{state, loaded_lists, MayFetch};
ghost use Rattle.ppq_fetch.specs.Rounds.{TookTurn, LostTurn};
ghost use Rattle.ppq_fetch.specs.Plan.{TakesPart};
ghost use Rattle.ppq_fetch.specs.Beside.{MayReadTwo};
ghost use Rattle.ppq_fetch.specs.Hints.{AreHints, NextsBut};

use crate::bench::Bench;
use crate::crew::Crew;
use crate::hint::tell_two;
use crate::load::{land_block, lift_block};
use crate::take::{consume_taken, merge_parts};
use crate::turn::has_room_ahead;
use ppq_array::{
    Berth, BufList, ExternalArray, Gate, Host, InternalArray, LEAST_RECORDS_BESIDE,
    LEAST_WORKERS_BESIDE, Record, Slot, Supply, record_laws,
};
use ppq_lane::{Job, overlap_mut};

// How many blocks may be loaded ahead before records are taken, where so many may be in all: two fewer
// where blocks are read beside the taking.
pub(crate) fn ahead_of_merge<R: Record>(bench: &Bench<R>, ahead: u32) -> u32
    ensures { result ≤ ahead }
{
    if !bench.reads_beside() || ahead < LEAST_WORKERS_BESIDE {
        return ahead;
    }
    ahead - 2
}

// Two runs whose next blocks are read.
#[derive(Clone, Copy)]
pub(crate) struct NextTwo {
    pub(crate) first: usize,
    pub(crate) second: usize,
}

// Takes the smallest of the safe records; `places` say which are safe. Where it pays, the next blocks of two
// runs are read meanwhile. Where a read fails, it gives the slot's number, also if the merge did not need
// the block; the records are not taken then.
//
// Its parameters stand in this order, and the limit is one of them, since the borrow checker takes the
// closure so.
pub(crate) fn take_turn<
    H: Host,
    S: Slot + Send + Sync,
    R: Record + Send + Sync,
    P: Supply<S, R>,
    G: Gate,
>(
    internal: &mut [InternalArray<R>],
    external: &mut [ExternalArray<S, R>],
    idle: &mut BufList<R>,
    places: &mut [u64],
    bench: &mut Bench<R>,
    supply: &mut P,
    below: &Option<R>,
    ahead: u32,
    out: &mut [R],
    crew: &Crew<H, G>,
) -> Option<u32>
where
    H::Dir: Send,
    requires may { MayFetch S.shown R.WIDTH ahead (state internal.old external.old idle.old (P.stock supply.old)) }
    requires plan { TakesPart R.Ord.cmp R.record_of R.WIDTH S.shown below.now internal.old external.old places.old (length out.old) (length out.old) }
    requires places { length places.old ≡ length internal.old + length external.old }
    requires bench { length places.old ≤ length bench.old.places }
    requires hints { AreHints R.record_of R.WIDTH S.shown external.old bench.old.hints }
    ensures took { IfNone result (TookTurn R.Ord.cmp R.record_of R.WIDTH S.shown below.now ahead (state internal.old external.old idle.old (P.stock supply.old)) (state internal.new external.new idle.new (P.stock supply.new)) out.new) }
    ensures lost { IfSome result (λ number. LostTurn S.shown R.WIDTH ahead number (state internal.old external.old idle.old (P.stock supply.old)) (state internal.new external.new idle.new (P.stock supply.new))) }
    ensures hints { IfNone result (AreHints R.record_of R.WIDTH S.shown external.new bench.new.hints) }
    ensures room { SameRoom out.old out.new places.old places.new bench.old bench.new }
    ensures home { P.home supply.new ≡ P.home supply.old }
{
    record_laws::<R>();
    match next_two(&*external, bench, ahead, out.len()) {
        None => {
            merge_parts(&*internal, &*external, places, bench, out, crew);
            consume_taken(internal, external, places, idle, supply);
            None
        }
        Some(two) => {
            let lost = take_ahead(
                internal, external, idle, places, bench, supply, below, ahead, out, two, crew,
            );
            tell_two(&*external, bench, two.first, two.second);
            lost
        }
    }
}

// Takes the smallest of the safe records while the next blocks of two runs are read.
fn take_ahead<H: Host, S: Slot + Send + Sync, R: Record + Send + Sync, P: Supply<S, R>, G: Gate>(
    internal: &mut [InternalArray<R>],
    external: &mut [ExternalArray<S, R>],
    idle: &mut BufList<R>,
    places: &mut [u64],
    bench: &mut Bench<R>,
    supply: &mut P,
    below: &Option<R>,
    ahead: u32,
    out: &mut [R],
    two: NextTwo,
    crew: &Crew<H, G>,
) -> Option<u32>
where
    H::Dir: Send,
    requires may { MayFetch S.shown R.WIDTH ahead (state internal.old external.old idle.old (P.stock supply.old)) }
    requires plan { TakesPart R.Ord.cmp R.record_of R.WIDTH S.shown below.now internal.old external.old places.old (length out.old) (length out.old) }
    requires places { length places.old ≡ length internal.old + length external.old }
    requires bench { length places.old ≤ length bench.old.places }
    requires two { MayReadTwo external.old ahead two.first two.second }
    ensures took { IfNone result (TookTurn R.Ord.cmp R.record_of R.WIDTH S.shown below.now ahead (state internal.old external.old idle.old (P.stock supply.old)) (state internal.new external.new idle.new (P.stock supply.new)) out.new) }
    ensures lost { IfSome result (λ number. LostTurn S.shown R.WIDTH ahead number (state internal.old external.old idle.old (P.stock supply.old)) (state internal.new external.new idle.new (P.stock supply.new))) }
    ensures nexts { IfNone result (NextsBut two.first two.second external.old external.new) }
    ensures long { length external.new ≡ length external.old }
    ensures hints { bench.new.hints ≡ bench.old.hints }
    ensures room { SameRoom out.old out.new places.old places.new bench.old bench.new }
    ensures home { P.home supply.new ≡ P.home supply.old }
{
    record_laws::<R>();
    let one = lift_block(crew.rt, &mut external[two.first], idle);
    let other = lift_block(crew.rt, &mut external[two.second], idle);
    let mut jobs = [one, other];
    merge_beside(
        &mut jobs, &*internal, &*external, places, bench, below, out, crew,
    );
    let (one, other) = apart(jobs);
    let failed = land_block(one, &mut external[two.first], idle, supply);
    let failed_too = land_block(other, &mut external[two.second], idle, supply);
    match (failed, failed_too) {
        (None, None) => {
            consume_taken(internal, external, places, idle, supply);
            None
        }
        (Some(number), _) => Some(number),
        (None, Some(number)) => Some(number),
    }
}

// Two jobs, each by itself.
fn apart<S: Slot, R: Record>(
    jobs: [Job<Berth<S, R>, R>; 2],
) -> (Job<Berth<S, R>, R>, Job<Berth<S, R>, R>)
    ensures { jobs ≡ result.0 ∷ (result.1 ∷ []) }
{
    let [one, other] = jobs;
    (one, other)
}

// Merges the smallest of the safe records while jobs are run.
fn merge_beside<H: Host, S: Slot + Send + Sync, R: Record + Send + Sync, G: Gate>(
    jobs: &mut [Job<Berth<S, R>, R>],
    internal: &[InternalArray<R>],
    external: &[ExternalArray<S, R>],
    places: &mut [u64],
    bench: &mut Bench<R>,
    _below: &Option<R>,
    out: &mut [R],
    crew: &Crew<H, G>,
)
where
    H::Dir: Send,
    requires jobs { All (MayRun R.WIDTH (λ b. S.shown b.slot)) jobs.old }
    requires may { MayMergeParts internal.now external.now places.old bench.old (length out.old) }
    ensures jobs { AllZip (IsDone R.bytes_of R.record_of R.WIDTH (λ b. S.shown b.slot)) jobs.old jobs.new }
    ensures room { SameRoom out.old out.new places.old places.new bench.old bench.new }
    ensures hints { bench.new.hints ≡ bench.old.hints }
    ensures merged { MergesSafe R.Ord.cmp places.old (loaded_lists internal.now external.now) places.new out.new }
{
    let mut merge = ||
        requires { MayMergeParts internal.now external.now places.now bench.now (length out.now) }
        ensures room { SameRoom out.entry.now out.exit.now places.entry.now places.exit.now bench.entry.now bench.exit.now }
        ensures hints { bench.exit.now.hints ≡ bench.entry.now.hints }
        ensures merged { MergesSafe R.Ord.cmp places.entry.now (loaded_lists internal.entry.now external.entry.now) places.exit.now out.exit.now }
    { merge_parts(internal, external, places, bench, out, crew) };
    overlap_mut(crew.rt, jobs, &mut merge);
}

// The runs of the next block and of the next one of any other run, where blocks are read beside a merge of so
// many records, and both may be loaded ahead.
fn next_two<S: Slot, R: Record>(
    external: &[ExternalArray<S, R>],
    bench: &mut Bench<R>,
    ahead: u32,
    count: usize,
) -> Option<NextTwo>
    requires hints { AreHints R.record_of R.WIDTH S.shown external.now bench.old.hints }
    requires few { length external.now < 2 ^ 32 }
    requires few_buffers { external_buffers external.now < 2 ^ 32 }
    ensures two { IfSome result (λ two. MayReadTwo external.now ahead two.first two.second) }
    ensures bench { bench.new ≡ bench.old }
{
    if !bench.reads_beside()
        || count < LEAST_RECORDS_BESIDE
        || ahead < 2
        || !has_room_ahead(external, ahead - 1)
    {
        return None;
    }
    let Some(first) = bench.least_hint() else {
        return None;
    };
    bench.hint(first.0, None);
    let next = bench.least_hint();
    bench.hint(first.0, Some(first.1));
    match next {
        None => None,
        Some(second) => Some(NextTwo {
            first: first.0 as usize,
            second: second.0 as usize,
        }),
    }
}
