//! Heaps that are stored as runs.
ghost use Rattle.std.specs.Prelude.{◌≡◌, ◌<◌, [], length, OnOk};
ghost use Rattle.ppq_heap.specs.Heaps.{ChangesOnly, items_of};
ghost use Rattle.ppq_queue.specs.Stores.{MayStoreHeaps, HeapsLeave, ShareStored};

use crate::QueueFault;
use crate::store::{Store, store_run};
use ppq_extract::{Gate, Host, Slot};
use ppq_heap::{Heaps, Record, record_laws};

impl<S: Slot + Send + Sync, R: Record + Send + Sync> Store<S, R> {
    // Stores each heap that is not empty as a run of its own, the first heap first. After each, levels of
    // runs are merged.
    pub fn store_heaps<H: Host, G: Gate>(
        &mut self,
        rt: &H,
        heaps: &mut Heaps<R>,
        gate: &G,
    ) -> Result<(), QueueFault>
    where
        H::Dir: Send,
        requires may { MayStoreHeaps S.shown R.Ord.cmp R.record_of R.WIDTH (items_of heaps.old) self.old }
        ensures leaves { HeapsLeave S.shown R.Ord.cmp R.record_of R.WIDTH (length heaps.old.heaps) heaps.old heaps.new self.old self.new result }
        ensures none { OnOk result (items_of heaps.new ≡ []) }
    {
        let count = heaps.count();
        'storing: for place in 0..count {
            self.store_heap(rt, heaps, place, gate)?;
        }
        Ok(())
    }

    // Sorts the heap at a place and stores it, if it is not empty.
    pub fn store_heap<H: Host, G: Gate>(
        &mut self,
        rt: &H,
        heaps: &mut Heaps<R>,
        place: u32,
        gate: &G,
    ) -> Result<(), QueueFault>
    where
        H::Dir: Send,
        requires may { MayStoreHeaps S.shown R.Ord.cmp R.record_of R.WIDTH (items_of heaps.old) self.old }
        requires place { place < length heaps.old.heaps }
        ensures leaves { HeapsLeave S.shown R.Ord.cmp R.record_of R.WIDTH 1 heaps.old heaps.new self.old self.new result }
        ensures only { ChangesOnly place heaps.old heaps.new }
        ensures share { OnOk result (ShareStored place heaps.old heaps.new) }
    {
        record_laws::<R>();
        if heaps.share(place).is_empty() {
            return Ok(());
        }
        heaps.sort_share(place);
        store_run(
            rt,
            self.sizes,
            &mut self.body,
            &mut self.supply,
            heaps.share(place),
        )?;
        heaps.clear_share(place);
        self.settle(rt, gate)
    }
}
