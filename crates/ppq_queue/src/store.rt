//! The runs of a queue with all that works on them, and the first of their records.
ghost use Rattle.std.specs.Prelude.{◌≡◌, ◌<◌, [], length, OnOk};
ghost use Rattle.ppq_heap.specs.ppq_record.Order.{Ascends};
ghost use Rattle.ppq_extract.specs.ppq_outside.Shown.{AllTell};
ghost use Rattle.ppq_spill.specs.Costing.{Pays};
ghost use Rattle.ppq_spill.specs.Storing.{in_buffers};
ghost use Rattle.ppq_queue.specs.Paying.{stores_cost, store_account};
ghost use Rattle.ppq_queue.specs.Resting.{slots_of};
ghost use Rattle.ppq_queue.specs.Stores.{RunMayCome, RunLeaves, MayAdd, StoreLeaves};

use crate::QueueFault;
use ppq_extract::{Extract, Host, OwnerLists, Sizes, Slot, Sources};
use ppq_heap::Record;
use ppq_spill::{PassBody, store_buffers, store_sorted};

// All records of a queue that are in no heap, and what is needed to store, merge and read them.
#[derive(Drop)]
pub struct Store<S: Slot + Send + Sync, R: Record + Send + Sync> {
    // The five numbers from which all sizes follow.
    pub sizes: Sizes,
    // The runs, and the buffers that blocks are written from and read into.
    pub body: PassBody<S, R>,
    // The free slots, and the buffers that no run uses.
    pub supply: OwnerLists<S, R>,
    // The smallest records of the runs, as they were when it was last refilled.
    pub extract: Extract<R>,
    // What refills and merges need.
    pub sources: Sources<R>,
}

impl<S: Slot + Send + Sync, R: Record + Send + Sync> Store<S, R> {
    // Merges all runs in buffers into one run in blocks.
    pub fn merge_runs<H: Host>(&mut self, rt: &H) -> Result<(), QueueFault>
    where
        H::Dir: Send,
        requires may { MayAdd S.shown R.Ord.cmp R.record_of R.WIDTH self.old }
        requires some { 0 < in_buffers self.old.body }
        ensures leaves { StoreLeaves S.shown R.Ord.cmp R.record_of R.WIDTH [] [] self.old self.new result }
        ensures pays { Pays result (stores_cost self.old.sizes 0 1) 1 (store_account S.shown self.old) (store_account S.shown self.new) }
        ensures none { OnOk result (self.new.body.runs.internal.items ≡ []) }
    {
        let answer = store_buffers(rt, &mut self.body, &mut self.supply);
        let _free = self.supply.free_slots();
        answer
    }
}

// Stores an ascending list of records as one more run.
pub fn store_run<H: Host, S: Slot + Send + Sync, R: Record + Send + Sync>(
    rt: &H,
    sizes: Sizes,
    body: &mut PassBody<S, R>,
    supply: &mut OwnerLists<S, R>,
    sorted: &[R],
) -> Result<(), QueueFault>
where
    H::Dir: Send,
    requires may { RunMayCome S.shown R.Ord.cmp R.record_of R.WIDTH sizes body.old supply.old (length sorted.now) }
    requires ascends { AllTell (slots_of S.shown body.old supply.old) → Ascends R.Ord.cmp sorted.now }
    ensures { RunLeaves S.shown R.Ord.cmp R.record_of R.WIDTH sizes sorted.now body.old body.new supply.old supply.new result }
{
    let answer = store_sorted(rt, body, supply, sorted);
    let _free = supply.free_slots();
    answer
}
