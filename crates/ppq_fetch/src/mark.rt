//! How many records of each run are safe.
ghost use Rattle.std.specs.Prelude.{◌≡◌, ◌+◌, ◌<◌, ◌≤◌, ◌^◌, length, map, count_by};
ghost use Rattle.ppq_array.specs.ppq_record.Order.{Ascends};
ghost use Rattle.ppq_array.specs.ppq_record.Runs.{all_of};
ghost use Rattle.ppq_fetch.specs.Edges.{is_within};
ghost use Rattle.ppq_fetch.specs.Plan.{IsMarked};
ghost use Rattle.ppq_fetch.specs.Fetching.{loaded_lists, count_in};

use crate::edge::Edge;
use crate::loaded::Loaded;
use ppq_array::{ExternalArray, InternalArray, Record, Slot, record_laws};

// Whether a record is on this side of the edge.
fn is_inside<R: Record>(x: R, edge: &Edge<R>) -> bool
    ensures { result ≡ is_within R.Ord.cmp edge.now x }
{
    match edge {
        Edge::Whole => true,
        Edge::AtMost(u) => !u.cmp(&x).is_lt(),
        Edge::Below(l) => x.cmp(l).is_lt(),
    }
}

// How many records of a run are on this side of the edge, where the run ascends; else some number of
// them. It looks at about the binary logarithm of them.
fn count_inside<R: Record, Q: Loaded<R>>(run: &Q, edge: &Edge<R>) -> u64
    ensures within { result ≤ length (Q.list run.now) }
    ensures count { Ascends R.Ord.cmp (Q.list run.now) → result ≡ count_by (is_within R.Ord.cmp edge.now) (Q.list run.now) }
    ensures whole { edge.now ≡ Edge.Whole → result ≡ length (Q.list run.now) }
{
    record_laws::<R>();
    let mut low = 0;
    let mut high = run.loaded_len();
    while low < high {
        let middle = low + (high - low) / 2;
        if is_inside(run.get(middle), edge) {
            low = middle + 1;
        } else {
            high = middle;
        }
    }
    low
}

// Writes how many records of each of some runs are on this side of the edge, and gives the sum.
fn mark_all<R: Record, Q: Loaded<R>>(runs: &[Q], edge: &Edge<R>, places: &mut [u64]) -> u64
    requires places { length places.old ≡ length runs.now }
    requires few { length (all_of (map Q.list runs.now)) < 2 ^ 64 }
    ensures length { length places.new ≡ length places.old }
    ensures marked { IsMarked R.Ord.cmp edge.now (map Q.list runs.now) places.new result }
{
    let mut sum = 0;
    for i in 0..runs.len() {
        let count = count_inside(&runs[i], edge);
        places[i] = count;
        sum += count;
    }
    sum
}

// Writes how many loaded records of each run are on this side of the edge, and gives the sum.
pub(crate) fn mark_runs<S: Slot, R: Record>(
    internal: &[InternalArray<R>],
    external: &[ExternalArray<S, R>],
    edge: &Edge<R>,
    places: &mut [u64],
) -> u64
    requires places { length places.old ≡ length internal.now + length external.now }
    requires few { count_in internal.now external.now < 2 ^ 64 }
    ensures length { length places.new ≡ length places.old }
    ensures marked { IsMarked R.Ord.cmp edge.now (loaded_lists internal.now external.now) places.new result }
{
    let (first, second) = places.split_at_mut(internal.len());
    let inside = mark_all(internal, edge, first);
    inside + mark_all(external, edge, second)
}
