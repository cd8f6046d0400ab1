//! Heaps and the rest of an extract buffer that are stored as runs.
ghost use Rattle.std.specs.Prelude.{◌≡◌, ◌⊎◌, ◌≤◌, ◌<◌, ◌+◌, ◌*◌, [], length, true, false, IsTrue, OnOk};
ghost use Rattle.ppq_extract.specs.ppq_budget.Sizes.{pool_of};
ghost use Rattle.ppq_heap.specs.Heaps.{items_of};
ghost use Rattle.ppq_spill.specs.Costing.{Pays};
ghost use Rattle.ppq_spill.specs.Storing.{in_buffers};
ghost use Rattle.ppq_queue.specs.Paying.{stores_cost, store_account};
ghost use Rattle.ppq_queue.specs.Stores.{MayWork, MayAdd, StoreLeaves, RestLeaves, HeapsLeave, ShareStored, IsHalfIdle};

use crate::QueueFault;
use crate::store::{Store, store_run};
use ppq_extract::{Gate, Host, Slot};
use ppq_heap::{Heaps, Record};

impl<S: Slot + Send + Sync, R: Record + Send + Sync> Store<S, R> {
    // Stores the rest of the extract buffer as a run, and then the first heap. Before, between and after,
    // levels of runs are merged.
    pub fn flush_all<H: Host, G: Gate>(
        &mut self,
        rt: &H,
        heaps: &mut Heaps<R>,
        gate: &G,
    ) -> Result<(), QueueFault>
    where
        H::Dir: Send,
        requires works { MayWork S.shown R.Ord.cmp R.record_of R.WIDTH self.old }
        requires some { 0 < length heaps.old.heaps }
        requires heaps { length (items_of heaps.old) ≤ self.old.sizes.memory }
        ensures leaves { HeapsLeave S.shown R.Ord.cmp R.record_of R.WIDTH 2 heaps.old heaps.new self.old self.new result }
        ensures first { OnOk result (ShareStored 0 heaps.old heaps.new) }
    {
        self.store_extract(rt, gate)?;
        self.store_heap(rt, heaps, 0, gate)
    }

    // Stores the rest of the extract buffer as a run before a limit session, and then each heap that is not
    // empty. Before, between and after, levels of runs are merged.
    pub fn store_all<H: Host, G: Gate>(
        &mut self,
        rt: &H,
        heaps: &mut Heaps<R>,
        gate: &G,
    ) -> Result<(), QueueFault>
    where
        H::Dir: Send,
        requires works { MayWork S.shown R.Ord.cmp R.record_of R.WIDTH self.old }
        requires heaps { length (items_of heaps.old) ≤ self.old.sizes.memory }
        ensures leaves { HeapsLeave S.shown R.Ord.cmp R.record_of R.WIDTH (1 + length heaps.old.heaps) heaps.old heaps.new self.old self.new result }
        ensures none { OnOk result (items_of heaps.new ≡ []) }
    {
        self.store_extract(rt, gate)?;
        self.store_heaps(rt, heaps, gate)
    }

    // Stores the rest of the extract buffer as a run. Before and after, levels of runs are merged.
    pub fn store_extract<H: Host, G: Gate>(&mut self, rt: &H, gate: &G) -> Result<(), QueueFault>
    where
        H::Dir: Send,
        requires works { MayWork S.shown R.Ord.cmp R.record_of R.WIDTH self.old }
        ensures { RestLeaves S.shown R.Ord.cmp R.record_of R.WIDTH 1 self.old self.new result }
    {
        self.settle_some(rt, gate)?;
        self.store_rest(rt, gate)
    }

    // Stores the rest of the extract buffer as a run before a session. If `merges`, runs in buffers are
    // merged then where few buffers of the pool are idle. Before and after each, levels of runs are merged.
    pub fn store_for_session<H: Host, G: Gate>(
        &mut self,
        rt: &H,
        merges: bool,
        gate: &G,
    ) -> Result<(), QueueFault>
    where
        H::Dir: Send,
        requires works { MayWork S.shown R.Ord.cmp R.record_of R.WIDTH self.old }
        ensures rest { RestLeaves S.shown R.Ord.cmp R.record_of R.WIDTH 2 self.old self.new result }
        ensures merged { merges ≡ true → OnOk result (pool_of self.new.sizes ≤ 2 * self.new.supply.sure_buffers) }
    {
        self.store_extract(rt, gate)?;
        if !merges {
            return Ok(());
        }
        self.merge_buffers(rt, gate)
    }

    // Merges all runs in buffers into one run in blocks, where few buffers of the pool are idle, and then
    // levels.
    fn merge_buffers<H: Host, G: Gate>(&mut self, rt: &H, gate: &G) -> Result<(), QueueFault>
    where
        H::Dir: Send,
        requires may { MayAdd S.shown R.Ord.cmp R.record_of R.WIDTH self.old }
        ensures leaves { StoreLeaves S.shown R.Ord.cmp R.record_of R.WIDTH [] [] self.old self.new result }
        ensures pays { Pays result (stores_cost self.old.sizes 0 1) 1 (store_account S.shown self.old) (store_account S.shown self.new) }
        ensures idle { OnOk result (IsHalfIdle self.new) }
    {
        if !self.are_few_idle() {
            return Ok(());
        }
        self.merge_runs(rt)?;
        self.settle(rt, gate)
    }

    // Whether there are runs in buffers, and fewer than half of the pool's buffers are idle.
    fn are_few_idle(&self) -> bool
        requires works { MayWork S.shown R.Ord.cmp R.record_of R.WIDTH self.now }
        ensures some { IsTrue result → 0 < in_buffers self.now.body }
        ensures few { IsTrue result → 2 * self.now.supply.sure_buffers < pool_of self.now.sizes }
        ensures enough { result ≡ false → (self.now.body.runs.internal.items ≡ []) ⊎ (pool_of self.now.sizes ≤ 2 * self.now.supply.sure_buffers) }
    {
        let Ok(pool) = self.sizes.pool() else {
            return false;
        };
        if self.body.runs.internal.is_empty() {
            return false;
        }
        self.supply.idle_buffers() < pool - pool / 2
    }

    // Stores the rest of the extract buffer.
    fn store_rest<H: Host, G: Gate>(&mut self, rt: &H, gate: &G) -> Result<(), QueueFault>
    where
        H::Dir: Send,
        requires may { MayAdd S.shown R.Ord.cmp R.record_of R.WIDTH self.old }
        ensures { RestLeaves S.shown R.Ord.cmp R.record_of R.WIDTH 1 self.old self.new result }
    {
        if self.extract.is_empty() {
            return Ok(());
        }
        store_run(
            rt,
            self.sizes,
            &mut self.body,
            &mut self.supply,
            self.extract.rest(),
        )?;
        self.extract.clear();
        self.settle(rt, gate)
    }
}
