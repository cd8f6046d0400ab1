//! An extract buffer that is made ready for the next pop.
ghost use Rattle.std.specs.Prelude.{◌≡◌, ◌<◌, true, false, []};
ghost use Rattle.ppq_queue.specs.Resting.{count_of};
ghost use Rattle.ppq_queue.specs.Stores.{MayWork, MayAdd, MakesReady, Refills};

use crate::QueueFault;
use crate::store::Store;
use ppq_extract::{Gate, Host, Slot};
use ppq_heap::Record;

impl<S: Slot + Send + Sync, R: Record + Send + Sync> Store<S, R> {
    // Takes the smallest records of the runs into the extract buffer, where it is empty and there is a run.
    // Before that, levels of runs are merged.
    pub fn make_ready<H: Host, G: Gate>(&mut self, rt: &H, gate: &G) -> Result<(), QueueFault>
    where
        H::Dir: Send,
        requires works { MayWork S.shown R.Ord.cmp R.record_of R.WIDTH self.old }
        ensures { MakesReady S.shown R.Ord.cmp R.record_of R.WIDTH self.old self.new result }
    {
        if !self.has_run() || !self.extract.is_empty() {
            return Ok(());
        }
        self.settle(rt, gate)?;
        self.refill(rt, gate)
    }

    // Whether there is a run.
    pub fn has_run(&self) -> bool
        requires { MayWork S.shown R.Ord.cmp R.record_of R.WIDTH self.now }
        ensures none { result ≡ false → count_of self.now.body ≡ 0 }
        ensures some { result ≡ true → 0 < count_of self.now.body }
    {
        let runs = self.body.runs.internal.len() + self.body.runs.external.len();
        runs > 0
    }

    // Refills the extract buffer, which is empty.
    pub fn refill<H: Host, G: Gate>(&mut self, rt: &H, gate: &G) -> Result<(), QueueFault>
    where
        H::Dir: Send,
        requires may { MayAdd S.shown R.Ord.cmp R.record_of R.WIDTH self.old }
        requires empty { self.old.extract.items ≡ [] }
        ensures { Refills S.shown R.Ord.cmp R.record_of R.WIDTH self.old self.new result }
    {
        let answer = self.extract.refill(
            rt,
            &mut self.body.runs,
            &mut self.body.lanes,
            &mut self.sources,
            &mut self.supply,
            None,
            gate,
        );
        let _free = self.supply.free_slots();
        answer
    }
}
