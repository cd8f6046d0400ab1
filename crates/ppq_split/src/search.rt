//! The search of a cut.
ghost use Rattle.std.specs.Prelude.{◌≡◌, ◌≤◌, ◌<◌, ◌^◌, length, true};
ghost use Rattle.ppq_record.specs.Runs.{all_of};
ghost use Rattle.ppq_split.specs.Cut.{AllAscend, AreWithin, IsCut, total};

use crate::bounds::{Bounds, Step, try_mark};
use crate::edge::Edge;
use crate::places::move_to;
use ppq_record::{Listing, Record, record_laws};

// The next number of Knuth's MMIX sequence modulo 2^64: marks are to come from all runs in no
// order.
#[inline]
fn stir(seed: u64) -> u64 {
    seed.wrapping_mul(6364136223846793005)
        .wrapping_add(1442695040888963407)
}

// Looks for the cut at a rank, and says whether it is found. Where the runs ascend it is.
pub(crate) fn find_cut<R: Record, Q: Listing<R>>(runs: &Q, rank: u64, cuts: &mut [u64]) -> bool
    requires places { length cuts.old ≡ length (Q.lists runs.now) }
    requires rank { rank ≤ length (all_of (Q.lists runs.now)) }
    requires room { length (all_of (Q.lists runs.now)) < 2 ^ 64 }
    ensures within { result ≡ true → AreWithin cuts.new (Q.lists runs.now) }
    ensures adds_up { result ≡ true → total cuts.new ≡ rank }
    ensures found { AllAscend R.Ord.cmp (Q.lists runs.now) → result ≡ true }
    ensures cut { AllAscend R.Ord.cmp (Q.lists runs.now) → IsCut R.Ord.cmp (Q.lists runs.now) rank cuts.new }
{
    record_laws::<R>();
    let size = move_to(runs, &Edge::End, cuts, 0, 0);
    if size <= rank {
        return size == rank;
    }
    let mut bounds = Bounds::new(size);
    let mut seed = rank;
    while bounds.low_rank < rank {
        seed = stir(seed);
        match try_mark(runs, rank, seed, &mut bounds, cuts) {
            Step::Found => return true,
            Step::Lost => return false,
            Step::Closer => {}
        }
    }
    move_to(runs, &bounds.low, cuts, 0, 0) == rank
}
