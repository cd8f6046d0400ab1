//! A place in each run.
ghost use Rattle.std.specs.Prelude.{◌≡◌, ◌≤◌, ◌<◌, ◌^◌, length, IfSome, IsNone};
ghost use Rattle.ppq_record.specs.Order.{is_before};
ghost use Rattle.ppq_record.specs.Runs.{all_of};
ghost use Rattle.ppq_split.specs.Cut.{AllAscend, AreWithin, total};
ghost use Rattle.ppq_split.specs.Edge.{IsEdge, edge_places};

use crate::edge::{Edge, place_in};
use ppq_record::{Listing, Record};

// Moves each place to where an edge parts its run, and returns the sum of the places. In each run
// it looks first at the old place, so many records `ahead` and so many `back`.
pub(crate) fn move_to<R: Record, Q: Listing<R>>(
    runs: &Q,
    edge: &Edge<R>,
    cuts: &mut [u64],
    ahead: u64,
    back: u64,
) -> u64
    requires places { length cuts.old ≡ length (Q.lists runs.now) }
    requires room { length (all_of (Q.lists runs.now)) < 2 ^ 64 }
    requires edge { IsEdge (is_before R.Ord.cmp) (Q.lists runs.now) edge.now }
    ensures within { AreWithin cuts.new (Q.lists runs.now) }
    ensures adds_up { result ≡ total cuts.new }
    ensures places { AllAscend R.Ord.cmp (Q.lists runs.now) → cuts.new ≡ edge_places (is_before R.Ord.cmp) (Q.lists runs.now) edge.now }
{
    let mut sum = 0;
    for run in 0..runs.runs() {
        let near = cuts[run as usize]
            .saturating_add(ahead)
            .saturating_sub(back);
        let place = place_in(runs, edge, run, near);
        cuts[run as usize] = place;
        sum += place;
    }
    sum
}

// `move_to` for an edge near a rank, from places that add up to another: in each run it looks first
// where the place would stand if all runs shared the way evenly.
pub(crate) fn move_near<R: Record, Q: Listing<R>>(
    runs: &Q,
    edge: &Edge<R>,
    cuts: &mut [u64],
    rank: u64,
    sum: u64,
) -> u64
    requires places { length cuts.old ≡ length (Q.lists runs.now) }
    requires room { length (all_of (Q.lists runs.now)) < 2 ^ 64 }
    requires edge { IsEdge (is_before R.Ord.cmp) (Q.lists runs.now) edge.now }
    ensures within { AreWithin cuts.new (Q.lists runs.now) }
    ensures adds_up { result ≡ total cuts.new }
    ensures places { AllAscend R.Ord.cmp (Q.lists runs.now) → cuts.new ≡ edge_places (is_before R.Ord.cmp) (Q.lists runs.now) edge.now }
{
    let count = u64::from(runs.runs().max(1));
    let ahead = rank.saturating_sub(sum) / count;
    let back = sum.saturating_sub(rank) / count;
    move_to(runs, edge, cuts, ahead, back)
}

// Takes the runs in turn, each as far as the rank allows.
pub(crate) fn fill<R: Record, Q: Listing<R>>(runs: &Q, rank: u64, cuts: &mut [u64])
    requires places { length cuts.old ≡ length (Q.lists runs.now) }
    requires rank { rank ≤ length (all_of (Q.lists runs.now)) }
    ensures within { AreWithin cuts.new (Q.lists runs.now) }
    ensures adds_up { total cuts.new ≡ rank }
{
    let mut left = rank;
    for run in 0..runs.runs() {
        let part = runs.len(run).min(left);
        cuts[run as usize] = part;
        left -= part;
    }
}

/// How many records the runs have in all; `None` if and only if that is 2^64 or more. It tells
/// whether a rank may be cut at, and looks at no record.
pub fn size_of<R: Record, Q: Listing<R>>(runs: &Q) -> Option<u64>
    ensures some { IfSome result (λ size. size ≡ length (all_of (Q.lists runs.now))) }
    ensures none { IsNone result → 2 ^ 64 ≤ length (all_of (Q.lists runs.now)) }
{
    let mut size: u64 = 0;
    for run in 0..runs.runs() {
        let Some(more) = size.checked_add(runs.len(run)) else {
            return None;
        };
        size = more;
    }
    Some(size)
}
