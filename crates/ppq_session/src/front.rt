//! What the owner of a queue keeps while a limit session is on.
ghost use Rattle.std.specs.Prelude.{◌≡◌, ◌≤◌, ◌+◌, ◌↔◌, ℕ, length, Some, None, IsNone, Err, IfOk, IfErr, OnOk};
ghost use Rattle.ppq_pass.specs.ppq_record.Bag.{IsSameBag, size_below};
ghost use Rattle.ppq_pass.specs.ppq_budget.Sizes.{AreInRange};
ghost use Rattle.ppq_pass.specs.ppq_outside.Shown.{AllTell};
ghost use Rattle.ppq_pass.specs.ppq_array.Kept.{SameSlots, HasFailed, AreQuiet, all_writes};
ghost use Rattle.ppq_pass.specs.ppq_array.Owner.{slots_shown};
ghost use Rattle.ppq_pass.specs.ppq_array.declared.store_fault.StoreFault.TheVariants.{Device};
ghost use Rattle.ppq_session.specs.BulkSession.{HasBuffers, resident_in};
ghost use Rattle.ppq_session.specs.Fronts.{least_below, without_least_below, number_in, IsReady, IsReadied, IsFrontRefusal, RefillKeeps, RowHadFree, TakesLeast};
ghost use Rattle.ppq_session.specs.FrontState.{IsTakenApart, front_holding};
ghost use Rattle.ppq_session.specs.State.{IsAllInRuns};

use crate::parts::BulkParts;
use crate::refill::refill_front;
use ppq_pass::{Gate, Host, QueueFault, Record, Slot, latch, record_laws};
use std::marker::Model;

/// What the owner of a queue keeps while a limit session is on: all records that the queue had, in runs,
/// and those of them that are next, in an extract buffer that has records below the limit alone.
///
/// Contracts see the multiset of its records, the limit, how many records it has and how many it gave,
/// and all that tells which passes are of this session.
#[derive(Drop)]
pub struct Front<S: Slot + Send + Sync, R: Record + Send + Sync> {
    // The parts of the queue. Slots and buffers that get free stay in its own lists.
    parts: BulkParts<S, R>,
    // Only records below it are given.
    limit: R,
    // How many records were given.
    popped: u64,
    // The slot that failed first; from then on the front is stopped.
    failed: Option<u32>,
}

impl<S: Slot + Send + Sync, R: Record + Send + Sync> Model for Front<S, R> {
    ghost use Rattle.std.specs.Prelude.{◌≡◌, None};
    ghost use Rattle.ppq_session.specs.Fronts.{FrontHolding};
    ghost use Rattle.ppq_session.specs.Apart.{IsOut};
    ghost use Rattle.ppq_session.specs.FrontState.{IsTallied, IsSoundFront, front_holding};

    ghost Value = { FrontHolding S R };

    ghost view = { λ f. front_holding S.shown R.record_of R.WIDTH f.parts f.limit f.popped f.failed };

    ghost invariant = { λ f. IsOut S.shown R.WIDTH f.parts × IsTallied S.shown f.parts f.popped f.failed × (f.failed ≡ None → IsSoundFront S.shown R.Ord.cmp R.record_of R.WIDTH f.parts f.limit) };
}

impl<S: Slot + Send + Sync, R: Record + Send + Sync> Front<S, R> {
    // A front of what the owner of a queue keeps, all of whose records are in runs.
    pub(crate) fn of(parts: BulkParts<S, R>, limit: R) -> Self
        requires { IsAllInRuns S.shown R.Ord.cmp R.record_of R.WIDTH parts }
        ensures { result ≡ front_holding S.shown R.record_of R.WIDTH parts limit 0 None }
    {
        Front {
            parts,
            limit,
            popped: 0,
            failed: None,
        }
    }

    /// The smallest record of the front that is below the limit. None is returned if and only if no such
    /// record is left. Where the extract buffer is empty, it is refilled with the smallest records of all runs
    /// first, up to a block for each worker, and each block is read at most once.
    ///
    /// `Device`: a call of the block with that number failed, now or before. Every later call of the front says
    /// so too, with that number, and changes nothing; `popped` and `limit` return what they did, and the
    /// session can be ended. `NoFreeBlock` is never returned.
    pub fn top<H: Host, G: Gate>(&mut self, rt: &H, gate: &G) -> Result<Option<R>, QueueFault>
    where
        H::Dir: Send,
        ensures answer { IfOk result (λ answer. AllTell self.old.slots → answer ≡ least_below R.Ord.cmp self.old.limit self.old.bag) }
        ensures none { IfOk result (λ answer. AllTell self.old.slots → IsNone answer ↔ (size_below R.Ord.cmp self.old.bag self.old.limit ≡ 0)) }
        ensures bag { OnOk result (AllTell self.old.slots → IsSameBag self.new.bag self.old.bag) }
        ensures sound { OnOk result (self.new.failed ≡ None) }
        ensures refused { IfErr result (IsFrontRefusal self.old self.new) }
        ensures latched { (number : ℕ) → self.old.failed ≡ Some number → (result ≡ Err (Device number)) × (self.new ≡ self.old) }
        ensures quiet { OnOk result (AreQuiet self.old.slots self.new.slots) }
        ensures slots { SameSlots self.old.slots self.new.slots }
        ensures tells { AllTell self.old.slots → AllTell self.new.slots }
        ensures writes { all_writes self.old.slots ≤ all_writes self.new.slots }
        ensures rest { self.new ≡ record self.old { bag = self.new.bag; slots = self.new.slots; run_buffers = self.new.run_buffers; in_extract = self.new.in_extract; failed = self.new.failed } }
    {
        record_laws::<R>();
        self.ready(rt, gate)?;
        Ok(self.first())
    }

    /// The smallest record of the front that is below the limit, removed. None is returned if and only if no
    /// such record is left. It costs a step in the extract buffer; where that is empty, it is refilled as
    /// for `top`.
    ///
    /// `Device` is returned as from `top`; nothing was removed then. `NoFreeBlock` is never returned.
    pub fn pop<H: Host, G: Gate>(&mut self, rt: &H, gate: &G) -> Result<Option<R>, QueueFault>
    where
        H::Dir: Send,
        ensures answer { IfOk result (λ answer. AllTell self.old.slots → answer ≡ least_below R.Ord.cmp self.old.limit self.old.bag) }
        ensures none { IfOk result (λ answer. AllTell self.old.slots → IsNone answer ↔ (size_below R.Ord.cmp self.old.bag self.old.limit ≡ 0)) }
        ensures left { OnOk result (AllTell self.old.slots → IsSameBag self.new.bag (without_least_below R.Ord.cmp self.old.limit self.old.bag)) }
        ensures popped { IfOk result (λ answer. self.new.popped ≡ self.old.popped + number_in answer) }
        ensures total { self.new.size + self.new.popped ≡ self.old.size + self.old.popped }
        ensures sound { OnOk result (self.new.failed ≡ None) }
        ensures refused { IfErr result (IsFrontRefusal self.old self.new) }
        ensures latched { (number : ℕ) → self.old.failed ≡ Some number → (result ≡ Err (Device number)) × (self.new ≡ self.old) }
        ensures quiet { OnOk result (AreQuiet self.old.slots self.new.slots) }
        ensures slots { SameSlots self.old.slots self.new.slots }
        ensures tells { AllTell self.old.slots → AllTell self.new.slots }
        ensures writes { all_writes self.old.slots ≤ all_writes self.new.slots }
        ensures rest { self.new ≡ record self.old { bag = self.new.bag; slots = self.new.slots; run_buffers = self.new.run_buffers; in_extract = self.new.in_extract; size = self.new.size; popped = self.new.popped; failed = self.new.failed } }
    {
        record_laws::<R>();
        self.ready(rt, gate)?;
        Ok(self.take())
    }

    // Refills the extract buffer, if it is empty.
    fn ready<H: Host, G: Gate>(&mut self, rt: &H, gate: &G) -> Result<(), QueueFault>
    where
        H::Dir: Send,
        ensures readied { OnOk result (IsReadied R.Ord.cmp self.old self.new) }
        ensures refused { IfErr result (IsFrontRefusal self.old self.new) }
        ensures latched { (number : ℕ) → self.old.failed ≡ Some number → (result ≡ Err (Device number)) × (self.new ≡ self.old) }
        ensures kept { RefillKeeps self.old self.new }
    {
        if let Some(number) = self.failed {
            return Err(QueueFault::Device { number });
        }
        if !self.parts.extract.is_empty() {
            return Ok(());
        }
        let answer = refill_front(rt, &mut self.parts, self.limit, gate);
        match answer {
            Ok(()) => Ok(()),
            Err(QueueFault::NoFreeBlock) => Err(QueueFault::NoFreeBlock),
            Err(QueueFault::Device { number }) => {
                latch(&mut self.failed, answer);
                Err(QueueFault::Device { number })
            }
        }
    }

    // The first record of the extract buffer.
    fn first(&self) -> Option<R>
        requires sound { self.now.failed ≡ None }
        requires ready { IsReady R.Ord.cmp self.now }
        ensures answer { AllTell self.now.slots → result ≡ least_below R.Ord.cmp self.now.limit self.now.bag }
    {
        record_laws::<R>();
        self.parts.extract.front()
    }

    // The first record of the extract buffer, taken out.
    fn take(&mut self) -> Option<R>
        requires sound { self.old.failed ≡ None }
        requires ready { IsReady R.Ord.cmp self.old }
        ensures { TakesLeast R.Ord.cmp result self.old self.new }
    {
        record_laws::<R>();
        match self.parts.extract.pop() {
            None => None,
            Some(first) => {
                self.parts.count -= 1;
                self.popped += 1;
                Some(first)
            }
        }
    }

    // All that it has, for the end of the session: its parts, how many records it gave, and the number of
    // the slot a call of which failed first.
    pub(crate) fn into_parts(self) -> (BulkParts<S, R>, u64, Option<u32>)
        ensures { IsTakenApart S.shown R.Ord.cmp R.record_of R.WIDTH result.0 result.1 result.2 self }
    {
        (self.parts, self.popped, self.failed)
    }

    /// What always holds of it, as clauses for the proof of whoever calls it. It does nothing.
    #[inline]
    pub fn known(&self)
        ensures range { AreInRange self.now.sizes }
        ensures slots { length self.now.slots ≡ self.now.sizes.blocks }
        ensures items { AllTell self.now.slots → AllTell (slots_shown S.shown self.now.items) }
        ensures buffers { HasBuffers self.now.sizes self.now.buffers self.now.pool }
        ensures memory { resident_in self.now.sizes self.now.buffers self.now.pool ≤ self.now.sizes.memory }
        ensures row { RowHadFree S.shown self.now }
        ensures peak { self.now.size + self.now.popped ≤ self.now.peak }
        ensures failed { (number : ℕ) → self.now.failed ≡ Some number → HasFailed number self.now.slots }
    {
        let _left = self.parts.extract.len();
    }

    /// The limit: only records below it are given.
    #[inline]
    pub fn limit(&self) -> R
        ensures { result ≡ self.now.limit }
    {
        self.limit
    }

    /// How many records it gave.
    #[inline]
    pub fn popped(&self) -> u64
        ensures { result ≡ self.now.popped }
    {
        self.popped
    }

    /// The number of the slot a call of which failed first.
    #[inline]
    pub fn failed(&self) -> Option<u32>
        ensures { result ≡ self.now.failed }
    {
        self.failed
    }
}
