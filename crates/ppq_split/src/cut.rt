//! Cuts.
ghost use Rattle.std.specs.Prelude.{◌≡◌, ◌≤◌, ◌<◌, ◌^◌, length};
ghost use Rattle.ppq_record.specs.Runs.{all_of};
ghost use Rattle.ppq_split.specs.Cut.{AllAscend, AreWithin, IsCut, HasOneCut, total};

use crate::places::fill;
use crate::search::find_cut;
use ppq_record::{Listing, Record, record_laws};

/// Gives each run a place, such that `rank` records in all stand in front of the places.
///
/// If all runs ascend, the places are the cut of that rank: no record in front of a place is greater
/// than a record from a place on, and of equal records those of the lower run stand in front of
/// their place first. Otherwise the runs are taken in turn, each as far as the rank allows.
///
/// It does not allocate. It tries about 5 marks for 8 runs and 12 for 512, and for each mark looks
/// at a few records of every run.
pub fn cut_at<R: Record, Q: Listing<R>>(runs: &Q, rank: u64, cuts: &mut [u64])
    requires places { length cuts.old ≡ length (Q.lists runs.now) }
    requires rank { rank ≤ length (all_of (Q.lists runs.now)) }
    requires room { length (all_of (Q.lists runs.now)) < 2 ^ 64 }
    ensures within { AreWithin cuts.new (Q.lists runs.now) }
    ensures adds_up { total cuts.new ≡ rank }
    ensures cut { AllAscend R.Ord.cmp (Q.lists runs.now) → IsCut R.Ord.cmp (Q.lists runs.now) rank cuts.new }
{
    if !find_cut(runs, rank, cuts) {
        fill(runs, rank, cuts);
    }
}

/// The law of cuts, as a clause for the proof of whoever calls it, and for a reader: runs have at
/// most one cut of each rank, and no place of a cut falls when the rank grows. It does nothing.
#[inline]
pub fn one_cut<R: Record>()
    ensures { HasOneCut R.Ord.cmp }
{
    record_laws::<R>();
}
