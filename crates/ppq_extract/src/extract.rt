//! The extract buffer.
ghost use Rattle.std.specs.Prelude.{◌≡◌, ◌+◌, ◌<◌, ◌≤◌, ◌↔◌, ℕ, [], min, length, drop, vec_capacity, Option, None, IsTrue, IfOk, OnOk, OnErr, IsErrOf};
ghost use Rattle.ppq_fetch.specs.ppq_record.Bag.{front, first_of};
ghost use Rattle.ppq_budget.specs.Sizes.{batch_of};
ghost use Rattle.ppq_fetch.specs.Taking.{wanted};
ghost use Rattle.ppq_fetch.specs.Fetching.{source_items, AreSources, MayFetch, FetchFailed, SourcesTell, RunsRise, count_in};
ghost use Rattle.ppq_extract.specs.Extracted.{held, sources_of, ServesFor, SourcesRest, Refilled};

use crate::emptied::drop_emptied;
use crate::sources::Sources;
use crate::taking::{Taking, take_from_runs};
use ppq_budget::Sizes;
use ppq_fetch::{
    Berth, Gate, Host, Lanes, Memory, Record, Runs, Slot, StoreFault, Supply, record_laws,
};
use std::alloc::Global;
use std::marker::Model;
use std::mem::replace;

/// Records in ascending order that leave at the front. Contracts see those that are left, and how many
/// there is room for.
#[derive(Drop)]
pub struct Extract<R: Record> {
    // as many records as there is room for
    records: Vec<R>,
    // how many of them have left
    from: usize,
    // how many of them were filled in
    to: usize,
}

impl<R: Record> Model for Extract<R> {
    ghost use Rattle.ppq_extract.specs.Extracted.{Held, held};

    ghost Value = { Held R };

    ghost use Rattle.std.specs.Prelude.{◌≤◌, ◌-◌, length, take, drop};

    ghost view = { λ e. held (take (e.to - e.from) (drop e.from e.records.items)) (length e.records.items) };

    ghost invariant = { λ e. (e.from ≤ e.to) × (e.to ≤ length e.records.items) };
}

impl<R: Record> Extract<R> {
    /// An empty buffer with room for a block of records for each worker. `Err` only if an allocation
    /// failed.
    pub fn new(alloc: Global, sizes: &Sizes) -> Result<Self, Memory>
        ensures { IfOk result (λ e. e ≡ held [] (batch_of sizes.now)) }
    {
        let records = zero_records(alloc, sizes.batch())?;
        Ok(Extract {
            records,
            from: 0,
            to: 0,
        })
    }

    /// How many records are left.
    #[inline]
    pub fn len(&self) -> usize
        ensures { result ≡ length self.now.items }
    {
        self.to - self.from
    }

    /// Whether no record is left.
    #[inline]
    pub fn is_empty(&self) -> bool
        ensures { IsTrue result ↔ (self.now.items ≡ []) }
    {
        self.from == self.to
    }

    /// The first record that is left. None is returned if and only if none is left.
    #[inline]
    pub fn front(&self) -> Option<R>
        ensures { result ≡ first_of self.now.items }
    {
        if self.from < self.to {
            Some(self.records[self.from])
        } else {
            None
        }
    }

    /// Takes the first record out. None is returned if and only if none is left.
    #[inline]
    pub fn pop(&mut self) -> Option<R>
        ensures first { result ≡ first_of self.old.items }
        ensures rest { self.new ≡ held (drop 1 self.old.items) self.old.room }
    {
        if self.from < self.to {
            let first = self.records[self.from];
            self.from += 1;
            Some(first)
        } else {
            None
        }
    }

    /// Takes the first `n` records out, in constant time.
    #[inline]
    pub fn skip(&mut self, n: usize)
        requires { n ≤ length self.old.items }
        ensures { self.new ≡ held (drop n self.old.items) self.old.room }
    {
        self.from += n;
    }

    /// All records that are left, in order.
    #[inline]
    pub fn rest(&self) -> &[R]
        ensures { result.now ≡ self.now.items }
    {
        &self.records[self.from..self.to]
    }

    /// Takes all records out.
    #[inline]
    pub fn clear(&mut self)
        ensures { self.new ≡ held [] self.old.room }
    {
        self.from = self.to;
    }

    /// Hands out its list, cut to so many records, to a merge that writes over it. From here until
    /// `take_back` there is no room. It does not allocate.
    pub fn lend(&mut self, count: usize) -> Vec<R>
        requires empty { self.old.items ≡ [] }
        requires room { count ≤ self.old.room }
        ensures lent { self.new ≡ held [] 0 }
        ensures count { length result.items ≡ count }
        ensures room { self.old.room ≤ vec_capacity result }
    {
        let alloc = *self.records.allocator();
        let mut list = replace(&mut self.records, Vec::new(alloc));
        list.truncate(count);
        self.from = 0;
        self.to = 0;
        list
    }

    /// Takes a list as its own, with room for so many records. It does not allocate, and costs a write over
    /// the records that were cut off.
    pub fn take_back(&mut self, list: Vec<R>, room: usize)
        requires some { 0 < length list.items }
        requires room { room ≤ vec_capacity list }
        ensures { self.new ≡ held [] room }
    {
        let mut list = list;
        let any = list[0];
        match list.resize(room, any) {
            Ok(()) => self.records = list,
            Err(_) => unreachable!(),
        }
        self.from = 0;
        self.to = 0;
    }

    /// Takes the smallest records of all runs into the buffer, as many as there is room for, or all there
    /// are; with a limit only those below it. Then runs with no record left are taken out of the lists,
    /// in which the order changes.
    ///
    /// What is loaded ahead is at most a block for each worker, beyond one a run that has something
    /// loaded. Slots, buffers, costs and answers are as `take_least` says: `Device` only if the read of
    /// the slot with that number failed, and nothing else. The buffer is empty then.
    pub fn refill<H: Host, S: Slot + Send + Sync, P: Supply<S, R>, G: Gate>(
        &mut self,
        rt: &H,
        runs: &mut Runs<S, R>,
        lanes: &mut Lanes<Berth<S, R>, R>,
        sources: &mut Sources<R>,
        supply: &mut P,
        below: Option<R>,
        gate: &G,
    ) -> Result<(), StoreFault>
    where
        R: Send + Sync,
        H::Dir: Send,
        requires empty { self.old.items ≡ [] }
        requires may { MayFetch S.shown R.WIDTH sources.old.bench.workers (sources_of runs.old lanes.old.idle (P.stock supply.old)) }
        requires serves { ServesFor (length runs.old.internal.items + length runs.old.external.items) sources.old }
        ensures refilled { OnOk result (Refilled R.Ord.cmp R.record_of R.WIDTH S.shown below (sources_of runs.old lanes.old.idle (P.stock supply.old)) (sources_of runs.new lanes.new.idle (P.stock supply.new)) self.new.items) }
        ensures front { OnOk result (SourcesTell S.shown (sources_of runs.old lanes.old.idle (P.stock supply.old)) → RunsRise R.record_of R.WIDTH S.shown R.Ord.cmp (sources_of runs.old lanes.old.idle (P.stock supply.old)) → self.new.items ≡ front R.Ord.cmp (source_items R.record_of R.WIDTH S.shown (sources_of runs.old lanes.old.idle (P.stock supply.old))) (wanted R.Ord.cmp self.old.room below (source_items R.record_of R.WIDTH S.shown (sources_of runs.old lanes.old.idle (P.stock supply.old))))) }
        ensures all { below ≡ None → OnOk result (length self.new.items ≡ min self.old.room (count_in runs.old.internal.items runs.old.external.items)) }
        ensures within { length self.new.items ≤ self.old.room }
        ensures may { OnOk result (MayFetch S.shown R.WIDTH sources.new.bench.workers (sources_of runs.new lanes.new.idle (P.stock supply.new))) }
        ensures sources { AreSources S.shown R.WIDTH sources.new.bench.workers (sources_of runs.new lanes.new.idle (P.stock supply.new)) }
        ensures device_alone { IsErrOf result StoreFault.NoFreeBlock → ⊥ }
        ensures device { (number : ℕ) → IsErrOf result (StoreFault.Device number) → FetchFailed S.shown number (sources_of runs.old lanes.old.idle (P.stock supply.old)) (sources_of runs.new lanes.new.idle (P.stock supply.new)) }
        ensures failed { OnErr result (self.new.items ≡ []) }
        ensures room { self.new.room ≡ self.old.room }
        ensures home { P.home supply.new ≡ P.home supply.old }
        ensures rest { SourcesRest sources.old sources.new }
        ensures jobs { lanes.new.jobs ≡ lanes.old.jobs }
        ensures batch { lanes.new.batch ≡ lanes.old.batch }
        ensures internal_room { vec_capacity runs.new.internal ≡ vec_capacity runs.old.internal }
        ensures external_room { vec_capacity runs.new.external ≡ vec_capacity runs.old.external }
    {
        let taken = take_from_runs(
            &Taking { rt, gate, below },
            runs,
            &mut lanes.idle,
            &mut sources.places,
            &mut sources.bench,
            supply,
            &mut self.records,
        );
        self.from = 0;
        match taken {
            Err(fault) => {
                self.to = 0;
                Err(fault)
            }
            Ok(n) => {
                self.to = n;
                drop_emptied(&mut runs.internal);
                drop_emptied(&mut runs.external);
                Ok(())
            }
        }
    }
}

// So many records whose bytes are zeros.
fn zero_records<R: Record>(alloc: Global, count: u32) -> Result<Vec<R>, Memory>
    ensures { IfOk result (λ all. length all.items ≡ count) }
{
    record_laws::<R>();
    let zeros = vec![in alloc; 0; R::WIDTH]?;
    let zero = R::take(&zeros);
    let mut all = Vec::with_capacity(alloc, count as usize)?;
    for _at in 0..count {
        all.push(zero)?;
    }
    Ok(all)
}
