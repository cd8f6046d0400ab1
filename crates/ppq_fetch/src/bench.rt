//! The bench of those who take records off runs.
ghost use Rattle.std.specs.Prelude.{◌≡◌, ◌↔◌, ◌≤◌, ◌<◌, ◌^◌, None, length, get_or, slice_set, replicate, IfOk, IfSome, IsNone};
ghost use Rattle.std.specs.List.{AllByRecursion as Each};
ghost use Rattle.ppq_array.specs.ppq_record.Order.{Ascends};
ghost use Rattle.ppq_array.specs.ppq_record.Bag.{IsSameBag, front};
ghost use Rattle.ppq_array.specs.ppq_record.Runs.{all_of};
ghost use Rattle.ppq_hints.specs.ppq_tree.Tree.{HasNoItems, IsLeastLeaf};
ghost use Rattle.ppq_merge.specs.ppq_split.Cut.{AreWithin};
ghost use Rattle.ppq_merge.specs.Parts.{before, places_for};

use ppq_array::{Gate, LEAST_WORKERS_BESIDE, Listing, Memory, Record};
use ppq_hints::Hints;
use ppq_merge::merge_workers;
use std::alloc::Global;
use std::marker::Model;
use std::thread::Threads;

/// What the workers merge with, for a number of runs, and hints of which run has the next block.
///
/// Contracts see `workers`, their number, `places`, a place for each run, up to which the last merge took
/// the run's records, and `hints`: of each run that was told of, the minimum of its next block, or none.
#[derive(Drop)]
pub struct Bench<R: Record> {
    // what the workers merge with
    merging: ppq_merge::Bench<R>,
    // the next block of each run; there is room for as many runs
    hints: Hints<R>,
    // whether the device reads by itself each block that it is told of
    reads_by_itself: bool,
}

impl<R: Record> Model for Bench<R> {
    ghost use Rattle.std.specs.Prelude.{◌≡◌, length};
    ghost use Rattle.ppq_fetch.specs.Bench.{Marks};

    ghost Value = { Marks R };

    ghost view = { λ b. record { places = b.merging.places; workers = b.merging.workers; hints = b.hints.items } };

    ghost invariant = { λ b. b.hints.room ≡ length b.merging.places };
}

impl<R: Record> Bench<R> {
    /// A bench for so many workers and at most so many runs. It allocates what [`ppq_merge::Bench::new`] does,
    /// and a hint for each run; no other call allocates.
    pub fn new(alloc: Global, workers: u32, runs: u32) -> Result<Self, Memory>
        requires { 1 ≤ workers }
        ensures places { IfOk result (λ bench. bench.places ≡ replicate runs 0) }
        ensures workers { IfOk result (λ bench. bench.workers ≡ workers) }
    {
        let merging = ppq_merge::Bench::new(alloc, workers, runs)?;
        let hints = Hints::new(alloc, runs)?;
        Ok(Bench {
            merging,
            hints,
            reads_by_itself: false,
        })
    }

    /// For how many runs it was made.
    #[inline]
    pub fn runs(&self) -> u32
        ensures { result ≡ length self.now.places }
    {
        self.merging.runs()
    }

    /// For how many workers it was made.
    #[inline]
    pub fn workers(&self) -> u32
        ensures { result ≡ self.now.workers }
    {
        self.merging.workers()
    }

    // The place in a run up to which the last merge took its records.
    #[inline]
    pub(crate) fn cut(&self, run: u32) -> u64
        requires { run < length self.now.places }
        ensures { result ≡ get_or self.now.places run 0 }
    {
        self.merging.cut(run)
    }

    // Makes the hints those of so many runs, none of which has a block, of a device that reads by itself what it
    // is told of, or does not.
    pub(crate) fn begin(&mut self, runs: u32, reads_by_itself: bool)
        requires { runs ≤ length self.old.places }
        ensures hints { self.new.hints ≡ replicate runs None }
        ensures rest { self.new ≡ record self.old { hints = self.new.hints } }
    {
        self.hints.clear(runs);
        self.reads_by_itself = reads_by_itself;
    }

    // Tells of a run what the minimum of its next block is, or that it has none.
    #[inline]
    pub(crate) fn hint(&mut self, run: u32, next: Option<R>)
        requires { run < length self.old.hints }
        ensures hints { self.new.hints ≡ slice_set self.old.hints run next }
        ensures rest { self.new ≡ record self.old { hints = self.new.hints } }
    {
        self.hints.advance(run, next);
    }

    // The run whose next block has the smallest minimum, with that minimum, the lowest run among equals.
    // `None` if and only if no run has a block.
    #[inline]
    pub(crate) fn least_hint(&self) -> Option<(u32, R)>
        ensures some { IfSome result (λ next. IsLeastLeaf R.Ord.cmp self.now.hints next.0 next.1) }
        ensures run { IfSome result (λ next. next.0 < length self.now.hints) }
        ensures none { IsNone result ↔ HasNoItems self.now.hints }
    {
        self.hints.least()
    }

    // Whether blocks are read on a thread beside a merge: there are workers enough, and the device does not read
    // by itself.
    #[inline]
    pub(crate) fn reads_beside(&self) -> bool {
        !self.reads_by_itself && self.merging.workers() >= LEAST_WORKERS_BESIDE
    }

    // Merges the smallest records of some runs, as many as `out` has room for.
    pub(crate) fn merge<H: Threads + Sync, Q: Listing<R>, G: Gate>(
        &mut self,
        rt: &H,
        runs: &Q,
        out: &mut [R],
        gate: &G,
    )
    where
        R: Send,
        requires count { length out.old ≤ length (all_of (Q.lists runs.now)) }
        requires room { length (all_of (Q.lists runs.now)) < 2 ^ 64 }
        requires bench { length (Q.lists runs.now) ≤ length self.old.places }
        ensures length { length out.new ≡ length out.old }
        ensures workers { self.new.workers ≡ self.old.workers }
        ensures bench { length self.new.places ≡ length self.old.places }
        ensures hints { self.new.hints ≡ self.old.hints }
        ensures within { AreWithin (places_for (Q.lists runs.now) self.new.places) (Q.lists runs.now) }
        ensures bag { IsSameBag out.new (before (places_for (Q.lists runs.now) self.new.places) (Q.lists runs.now)) }
        ensures front { Each (Ascends R.Ord.cmp) (Q.lists runs.now) → out.new ≡ front R.Ord.cmp (all_of (Q.lists runs.now)) (length out.old) }
    {
        merge_workers(rt, &mut self.merging, runs, out.len() as u64, out, gate);
    }
}
