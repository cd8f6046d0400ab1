//! Levels of runs that are merged until none has more than 8.
ghost use Rattle.std.specs.Prelude.{◌≡◌, ◌^◌, ◌≤◌, ◌<◌, length, IsOk, OnOk, true};
ghost use Rattle.ppq_extract.specs.ppq_array.Holdings.{external_buffers};
ghost use Rattle.ppq_spill.specs.Leveling.{count_level};
ghost use Rattle.ppq_queue.specs.Resting.{count_of};
ghost use Rattle.ppq_queue.specs.Stores.{MayWork, MayMergeTwo, LevelLeaves, Settles};

use crate::QueueFault;
use crate::store::Store;
use ppq_extract::{ExternalArray, FAN, Gate, Host, LEVELS, Slot, Sources};
use ppq_heap::Record;
use ppq_spill::{merge_level, merge_pair};

// How many runs a settled level has at most.
const FULL: u64 = FAN as u64;

impl<S: Slot + Send + Sync, R: Record + Send + Sync> Store<S, R> {
    // Merges levels of runs, if there is a run.
    pub fn settle_some<H: Host, G: Gate>(&mut self, rt: &H, gate: &G) -> Result<(), QueueFault>
    where
        H::Dir: Send,
        requires works { MayWork S.shown R.Ord.cmp R.record_of R.WIDTH self.old }
        ensures settles { Settles S.shown R.Ord.cmp R.record_of R.WIDTH self.old self.new result }
        ensures easy { count_of self.old.body ≡ 0 → IsOk result × (self.new ≡ self.old) }
    {
        if !self.has_run() {
            return Ok(());
        }
        self.settle(rt, gate)
    }

    // Merges levels of runs in blocks, 8 runs into one of the next level, until none has more than 8 runs.
    // Each level is looked at once, the lowest first.
    pub fn settle<H: Host, G: Gate>(&mut self, rt: &H, gate: &G) -> Result<(), QueueFault>
    where
        H::Dir: Send,
        requires works { MayWork S.shown R.Ord.cmp R.record_of R.WIDTH self.old }
        ensures { Settles S.shown R.Ord.cmp R.record_of R.WIDTH self.old self.new result }
    {
        for level in 0..LEVELS {
            self.settle_level(rt, level, gate)?;
        }
        Ok(())
    }

    // Merges runs of a level until it has no more than 8.
    fn settle_level<H: Host, G: Gate>(
        &mut self,
        rt: &H,
        level: u32,
        gate: &G,
    ) -> Result<(), QueueFault>
    where
        H::Dir: Send,
        requires works { MayWork S.shown R.Ord.cmp R.record_of R.WIDTH self.old }
        requires level { level ≤ 7 }
        ensures leaves { LevelLeaves S.shown R.Ord.cmp R.record_of R.WIDTH level self.old self.new result }
        ensures level { OnOk result (count_level level self.new.body.runs.external.items ≤ 8) }
    {
        while count_at(&self.body.runs.external, level) > FULL {
            self.merge_some(rt, level, gate)?;
        }
        Ok(())
    }

    // Merges runs of a level: 16 of them where two merges can be made side by side, and else 8.
    fn merge_some<H: Host, G: Gate>(
        &mut self,
        rt: &H,
        level: u32,
        gate: &G,
    ) -> Result<(), QueueFault>
    where
        H::Dir: Send,
        requires works { MayWork S.shown R.Ord.cmp R.record_of R.WIDTH self.old }
        requires level { level ≤ 7 }
        requires more { 8 < count_level level self.old.body.runs.external.items }
        ensures leaves { LevelLeaves S.shown R.Ord.cmp R.record_of R.WIDTH level self.old self.new result }
        ensures fewer { OnOk result (length self.new.body.runs.external.items < length self.old.body.runs.external.items) }
    {
        if self.may_pair(level) {
            return self.merge_twice(rt, level, gate);
        }
        self.merge_once(rt, level, gate)
    }

    // Whether two merges of a level can be made side by side: both are due, no block is loaded, there is a
    // worker for each, the second has a bench, and no record is in the extract buffer, over which it
    // writes.
    fn may_pair(&self, level: u32) -> bool
        requires works { MayWork S.shown R.Ord.cmp R.record_of R.WIDTH self.now }
        ensures { result ≡ true → MayMergeTwo level self.now }
    {
        let arrays = self.body.runs.external.as_slice();
        let two = self.sizes.workers() > 1 && count_at(arrays, level) > 2 * FULL;
        let idle = two && count_loaded(arrays) == 0;
        let second = &self.sources.second;
        let able = second.workers() == 1 && second.runs() >= FAN;
        idle && able && self.extract.is_empty()
    }

    // Merges 16 runs of a level, 8 beside 8.
    fn merge_twice<H: Host, G: Gate>(
        &mut self,
        rt: &H,
        level: u32,
        gate: &G,
    ) -> Result<(), QueueFault>
    where
        H::Dir: Send,
        requires works { MayWork S.shown R.Ord.cmp R.record_of R.WIDTH self.old }
        requires level { level ≤ 7 }
        requires pair { MayMergeTwo level self.old }
        ensures leaves { LevelLeaves S.shown R.Ord.cmp R.record_of R.WIDTH level self.old self.new result }
        ensures fewer { OnOk result (length self.new.body.runs.external.items < length self.old.body.runs.external.items) }
    {
        let Sources { bench, second, .. } = &mut self.sources;
        let mut list = self.extract.lend(self.sizes.block() as usize);
        let answer = merge_pair(
            rt,
            &mut self.body.runs.external,
            level,
            &mut self.supply,
            &mut self.body.lanes,
            bench,
            second,
            &mut list,
            gate,
        );
        self.extract.take_back(list, self.sizes.batch() as usize);
        let _free = self.supply.free_slots();
        answer
    }

    // Merges 8 runs of a level.
    fn merge_once<H: Host, G: Gate>(
        &mut self,
        rt: &H,
        level: u32,
        gate: &G,
    ) -> Result<(), QueueFault>
    where
        H::Dir: Send,
        requires works { MayWork S.shown R.Ord.cmp R.record_of R.WIDTH self.old }
        requires level { level ≤ 7 }
        requires more { 8 < count_level level self.old.body.runs.external.items }
        ensures leaves { LevelLeaves S.shown R.Ord.cmp R.record_of R.WIDTH level self.old self.new result }
        ensures fewer { OnOk result (length self.new.body.runs.external.items < length self.old.body.runs.external.items) }
    {
        let answer = merge_level(
            rt,
            &mut self.body.runs.external,
            level,
            &mut self.supply,
            &mut self.body.lanes,
            &mut self.sources.bench,
            gate,
        );
        let _free = self.supply.free_slots();
        answer
    }
}

// How many runs have a level.
fn count_at<S: Slot, R: Record>(arrays: &[ExternalArray<S, R>], level: u32) -> u64
    ensures { result ≡ count_level level arrays.now }
{
    let mut count: u64 = 0;
    for array in arrays {
        if array.level() == level {
            count += 1;
        }
    }
    count
}

// How many buffers hold loaded blocks of runs.
fn count_loaded<S: Slot, R: Record>(arrays: &[ExternalArray<S, R>]) -> u64
    requires { external_buffers arrays.now < 2 ^ 32 }
    ensures { result ≡ external_buffers arrays.now }
{
    let mut count: u64 = 0;
    for array in arrays {
        count += u64::from(array.buffers());
    }
    count
}
