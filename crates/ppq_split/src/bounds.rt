//! The bounds of a search, and how a mark narrows them.
ghost use Rattle.std.specs.Prelude.{◌≡◌, ◌≤◌, ◌<◌, ◌-◌, ◌^◌, length};
ghost use Rattle.ppq_record.specs.Order.{is_before};
ghost use Rattle.ppq_record.specs.Runs.{all_of};
ghost use Rattle.ppq_split.specs.Bounds.{AreBounds};
ghost use Rattle.ppq_split.specs.Cut.{AllAscend, AreWithin, IsCut, total};
ghost use Rattle.ppq_split.specs.declared.edge.Edge.TheVariants.{Start, End};
ghost use Rattle.ppq_split.specs.declared.bounds.Step.TheVariants.{Found, Lost, Closer};

use crate::edge::Edge;
use crate::mark::choose;
use crate::places::move_near;
use ppq_record::{Listing, Record, record_laws};

// Two edges with the wanted cut between them.
#[derive(Clone, Copy)]
pub(crate) struct Bounds<R: Record> {
    // The edge below the cut.
    pub(crate) low: Edge<R>,
    // How many records stand in front of the lower edge.
    pub(crate) low_rank: u64,
    // The edge above the cut.
    pub(crate) high: Edge<R>,
    // How many records stand in front of the upper edge.
    pub(crate) high_rank: u64,
    // How many records stand in front of the places that were tried last.
    tried: u64,
}

// What trying a mark led to.
#[derive(Clone, Copy)]
pub(crate) enum Step {
    // The places are the cut.
    Found,
    // No mark lies between the bounds, or its rank does not: the runs do not ascend.
    Lost,
    // The bounds are closer to each other.
    Closer,
}

impl<R: Record> Bounds<R> {
    // The bounds of runs that have so many records.
    pub(crate) fn new(size: u64) -> Self
        ensures low { result.low ≡ Start }
        ensures low_rank { result.low_rank ≡ 0 }
        ensures high { result.high ≡ End }
        ensures high_rank { result.high_rank ≡ size }
    {
        Bounds {
            low: Edge::Start,
            low_rank: 0,
            high: Edge::End,
            high_rank: size,
            tried: size,
        }
    }
}

// The run at which the choice of the next mark begins.
#[inline]
fn first_run(seed: u64, runs: u32) -> u32 {
    (seed >> 32) as u32 % runs.max(1)
}

// Chooses a mark between the bounds and tries the edge in front of it, so that `cuts` are the
// places of that edge. The seed says at which run the choice begins.
pub(crate) fn try_mark<R: Record, Q: Listing<R>>(
    runs: &Q,
    rank: u64,
    seed: u64,
    bounds: &mut Bounds<R>,
    cuts: &mut [u64],
) -> Step
    requires places { length cuts.old ≡ length (Q.lists runs.now) }
    requires room { length (all_of (Q.lists runs.now)) < 2 ^ 64 }
    requires bounds { AreBounds (is_before R.Ord.cmp) (Q.lists runs.now) rank bounds.old }
    ensures within { result ≡ Found → AreWithin cuts.new (Q.lists runs.now) }
    ensures adds_up { result ≡ Found → total cuts.new ≡ rank }
    ensures cut { result ≡ Found → AllAscend R.Ord.cmp (Q.lists runs.now) → IsCut R.Ord.cmp (Q.lists runs.now) rank cuts.new }
    ensures lost { result ≡ Lost → AllAscend R.Ord.cmp (Q.lists runs.now) → ⊥ }
    ensures bounds { result ≡ Closer → AreBounds (is_before R.Ord.cmp) (Q.lists runs.now) rank bounds.new }
    ensures closer { result ≡ Closer → bounds.new.high_rank - bounds.new.low_rank < bounds.old.high_rank - bounds.old.low_rank }
{
    record_laws::<R>();
    let from = first_run(seed, runs.runs());
    let Some(mark) = choose(runs, rank, bounds, cuts, from) else {
        return Step::Lost;
    };
    let edge = mark.before();
    let at = move_near(runs, &edge, cuts, rank, bounds.tried);
    bounds.tried = at;
    if at == rank {
        return Step::Found;
    }
    if at < bounds.low_rank || bounds.high_rank <= at {
        return Step::Lost;
    }
    if at < rank {
        bounds.low = mark.after();
        bounds.low_rank = at + 1;
    } else {
        bounds.high = edge;
        bounds.high_rank = at;
    }
    Step::Closer
}
