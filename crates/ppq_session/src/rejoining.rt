//! A queue of the parts into which all passes were put.
ghost use Rattle.std.specs.Prelude.{◌≡◌, ◌+◌, ◌*◌, ℕ, [], List, Some};
ghost use Rattle.ppq_pass.specs.ppq_outside.Shown.{Shown};
ghost use Rattle.ppq_pass.specs.ppq_array.Kept.{HasFailed};
ghost use Rattle.ppq_session.specs.Gathering.{IsGathered, IsMade};

use crate::closed::Closed;
use ppq_pass::{Heaps, Record, Sizes, Slot};
use ppq_queue::{Queue, QueueParts};

/// The queue of these parts, of a session in which so many records were popped: they count in its peak.
/// `first` is the number of the first fault that was met before.
pub fn rejoin<S: Slot + Send + Sync, R: Record + Send + Sync>(
    c: Closed<S, R>,
    popped: u64,
    first: Option<u32>,
) -> Queue<S, R>
    requires { (slots : List Shown) × (items : List Shown) × IsGathered S.shown R.Ord.cmp R.record_of R.WIDTH slots items c [] × ((number : ℕ) → first ≡ Some number → HasFailed number slots) }
    ensures { IsMade S.shown R.Ord.cmp R.record_of R.WIDTH popped first c result }
{
    let Closed {
        sizes,
        heaps,
        tree,
        body,
        supply,
        extract,
        sources,
        count,
        peak,
        limited,
        counts,
        failed,
        slots,
    } = c;
    let most = most_records(&sizes);
    let load = count.saturating_add(popped).min(most);
    let count = count.min(most);
    let heaps = Heaps::from_parts(heaps, tree);
    heaps.known();
    Queue::from_parts(QueueParts {
        sizes,
        heaps,
        body,
        supply,
        extract,
        sources,
        count,
        peak: peak.max(load),
        limited,
        counts,
        failed: first.or(failed),
        slots,
    })
}

// How many records can ever be there: as many as the budget has, and the device.
fn most_records(sizes: &Sizes) -> u64
    ensures { result ≡ sizes.now.memory + sizes.now.block * sizes.now.blocks }
{
    sizes.memory() + u64::from(sizes.block()) * u64::from(sizes.blocks())
}
