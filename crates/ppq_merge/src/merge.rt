//! Merging by one worker.
ghost use Rattle.std.specs.Prelude.{◌≡◌, ◌≤◌, ◌<◌, ◌+◌, length};
ghost use Rattle.ppq_split.specs.ppq_record.Order.{is_before};
ghost use Rattle.ppq_merge.specs.Heads.{heads, IsMerging, IsNext, LeadsToCut};
ghost use Rattle.ppq_merge.specs.Parts.{AreParts, IsMerge, size_between, between};

use crate::fronts::Fronts;
use ppq_split::{Listing, Record, record_laws};
use ppq_tree::{Heads, MinTree};
use std::marker::PhantomData;

// Takes the smallest record that is left, that of the lowest run among equals.
#[inline]
fn take_next<R: Record, Q: Listing<R>>(
    runs: &Q,
    from: &mut [u64],
    to: &[u64],
    tree: &mut MinTree<R>,
) -> R
    requires parts { AreParts from.old to.now (Q.lists runs.now) }
    requires heads { tree.old.items ≡ heads from.old to.now (Q.lists runs.now) }
    requires some { 0 < size_between from.old to.now }
    ensures parts { AreParts from.new to.now (Q.lists runs.now) }
    ensures heads { tree.new.items ≡ heads from.new to.now (Q.lists runs.now) }
    ensures room { tree.new.room ≡ tree.old.room }
    ensures less { size_between from.new to.now + 1 ≡ size_between from.old to.now }
    ensures next { IsNext (is_before R.Ord.cmp) (Q.lists runs.now) result (between from.old to.now (Q.lists runs.now)) (between from.new to.now (Q.lists runs.now)) }
    ensures cut { LeadsToCut (is_before R.Ord.cmp) (Q.lists runs.now) to.now from.old from.new }
{
    record_laws::<R>();
    let Some(best) = tree.winner() else {
        unreachable!();
    };
    from[best.0 as usize] += 1;
    let fronts = Fronts {
        runs,
        from,
        to,
        record: PhantomData,
    };
    let next = fronts.head(best.0);
    tree.put(best.0, next);
    best.1
}

// Merges the smallest records between two places of each run into `out`, as many as it has room
// for; `from` moves to the first records that are left.
pub(crate) fn merge_front<R: Record, Q: Listing<R>>(
    runs: &Q,
    from: &mut [u64],
    to: &[u64],
    tree: &mut MinTree<R>,
    out: &mut [R],
)
    requires parts { AreParts from.old to.now (Q.lists runs.now) }
    requires size { length out.old ≤ size_between from.old to.now }
    requires leaves { length from.old ≤ tree.old.room }
    ensures parts { AreParts from.new to.now (Q.lists runs.now) }
    ensures left { length out.old + size_between from.new to.now ≡ size_between from.old to.now }
    ensures merging { IsMerging (is_before R.Ord.cmp) (Q.lists runs.now) out.new (between from.new to.now (Q.lists runs.now)) (between from.old to.now (Q.lists runs.now)) }
    ensures cut { LeadsToCut (is_before R.Ord.cmp) (Q.lists runs.now) to.now from.old from.new }
    ensures room { tree.new.room ≡ tree.old.room }
{
    record_laws::<R>();
    tree.put_all(&Fronts {
        runs,
        from,
        to,
        record: PhantomData,
    });
    for at in 0..out.len() {
        out[at] = take_next(runs, from, to, tree);
    }
}

/// Merges the records between two places of each run into `out`, which then ascends if the runs do;
/// `from` becomes `to`.
///
/// It does not allocate. A record costs a match on each level of a tree with a leaf for each run:
/// log2 of the number of runs, rounded up.
pub fn merge_into<R: Record, Q: Listing<R>>(
    runs: &Q,
    from: &mut [u64],
    to: &[u64],
    tree: &mut MinTree<R>,
    out: &mut [R],
)
    requires parts { AreParts from.old to.now (Q.lists runs.now) }
    requires size { length out.old ≡ size_between from.old to.now }
    requires leaves { length from.old ≤ tree.old.room }
    ensures merge { IsMerge R.Ord.cmp (Q.lists runs.now) from.old to.now out.new }
    ensures moved { from.new ≡ to.now }
    ensures room { tree.new.room ≡ tree.old.room }
{
    record_laws::<R>();
    merge_front(runs, from, to, tree, out);
}
