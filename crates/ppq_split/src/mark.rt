//! Marks: records with their places, which a search tries one after the other.
ghost use Rattle.std.specs.Prelude.{◌≡◌, ◌≤◌, ◌<◌, ◌+◌, ◌^◌, length, IfSome, IsNone};
ghost use Rattle.ppq_record.specs.Order.{is_before};
ghost use Rattle.ppq_split.specs.Bounds.{AreBounds, IsBetween};
ghost use Rattle.ppq_split.specs.Cut.{AllAscend, total};
ghost use Rattle.ppq_split.specs.Edge.{edge_places};
ghost use Rattle.ppq_split.specs.Mark.{IsMark};
ghost use Rattle.ppq_split.specs.declared.edge.Edge.TheVariants.{At};

use crate::bounds::Bounds;
use crate::edge::{Edge, place_in};
use ppq_record::{Listing, Record, record_laws};

// A record with its run and its place there.
#[derive(Clone, Copy)]
pub(crate) struct Mark<R: Record> {
    // The record.
    item: R,
    // The number of its run.
    run: u32,
    // Its place in the run, from 0.
    place: u64,
}

impl<R: Record> Mark<R> {
    // The edge in front of the record.
    #[inline]
    pub(crate) fn before(&self) -> Edge<R>
        ensures { result ≡ At self.now.item self.now.run self.now.place }
    {
        Edge::At {
            item: self.item,
            run: self.run,
            place: self.place,
        }
    }

    // The edge after the record.
    #[inline]
    pub(crate) fn after(&self) -> Edge<R>
        requires { self.now.place + 1 < 2 ^ 64 }
        ensures { result ≡ At self.now.item self.now.run (self.now.place + 1) }
    {
        Edge::At {
            item: self.item,
            run: self.run,
            place: self.place + 1,
        }
    }
}

// The place at a part of a width, from 0: as far into the width as the part is into the whole.
#[inline]
fn part_of(width: u64, part: u64, whole: u64) -> u64
    requires width { 0 < width }
    requires whole { 0 < whole }
    ensures { result < width }
{
    let place = u128::from(width) * u128::from(part) / u128::from(whole);
    place.min(u128::from(width - 1)) as u64
}

// A record between the bounds, of the first run from number `from` on that has one: as far between
// them as the rank is between theirs.
fn choose_from<R: Record, Q: Listing<R>>(
    runs: &Q,
    rank: u64,
    bounds: &Bounds<R>,
    cuts: &[u64],
    from: u32,
) -> Option<Mark<R>>
    requires places { length cuts.now ≡ length (Q.lists runs.now) }
    requires bounds { AreBounds (is_before R.Ord.cmp) (Q.lists runs.now) rank bounds.now }
    ensures mark { IfSome result (λ mark. IsMark (Q.lists runs.now) mark) }
    ensures between { IfSome result (λ mark. AllAscend R.Ord.cmp (Q.lists runs.now) → IsBetween (is_before R.Ord.cmp) (Q.lists runs.now) bounds.now mark) }
    ensures none { IsNone result → from ≡ 0 → AllAscend R.Ord.cmp (Q.lists runs.now) → total (edge_places (is_before R.Ord.cmp) (Q.lists runs.now) bounds.now.high) ≤ total (edge_places (is_before R.Ord.cmp) (Q.lists runs.now) bounds.now.low) }
{
    record_laws::<R>();
    let part = rank - bounds.low_rank;
    let whole = bounds.high_rank - bounds.low_rank;
    for run in from..runs.runs() {
        let near = cuts[run as usize];
        let first = place_in(runs, &bounds.low, run, near);
        let end = place_in(runs, &bounds.high, run, near);
        if first < end {
            let place = first + part_of(end - first, part, whole);
            let item = runs.at(run, place);
            return Some(Mark { item, run, place });
        }
    }
    None
}

// A record between the bounds, where possible of a run from number `from` on. Where the runs ascend
// there is one.
pub(crate) fn choose<R: Record, Q: Listing<R>>(
    runs: &Q,
    rank: u64,
    bounds: &Bounds<R>,
    cuts: &[u64],
    from: u32,
) -> Option<Mark<R>>
    requires places { length cuts.now ≡ length (Q.lists runs.now) }
    requires bounds { AreBounds (is_before R.Ord.cmp) (Q.lists runs.now) rank bounds.now }
    ensures mark { IfSome result (λ mark. IsMark (Q.lists runs.now) mark) }
    ensures between { IfSome result (λ mark. AllAscend R.Ord.cmp (Q.lists runs.now) → IsBetween (is_before R.Ord.cmp) (Q.lists runs.now) bounds.now mark) }
    ensures none { IsNone result → AllAscend R.Ord.cmp (Q.lists runs.now) → total (edge_places (is_before R.Ord.cmp) (Q.lists runs.now) bounds.now.high) ≤ total (edge_places (is_before R.Ord.cmp) (Q.lists runs.now) bounds.now.low) }
{
    if let Some(mark) = choose_from(runs, rank, bounds, cuts, from) {
        return Some(mark);
    }
    choose_from(runs, rank, bounds, cuts, 0)
}
