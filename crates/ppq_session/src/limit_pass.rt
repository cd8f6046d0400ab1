//! A pass of a limit session.
ghost use Rattle.std.specs.Prelude.{◌≡◌, ◌<◌, ◌+◌, ◌↔◌, ◌∷◌, ℕ, false, Some, None, Err, IsOk, IsErr, IfErr, OnOk, OnErr};
ghost use Rattle.ppq_pass.specs.ppq_record.Order.{is_before};
ghost use Rattle.ppq_pass.specs.ppq_record.Bag.{IsSameBag};
ghost use Rattle.ppq_pass.specs.ppq_budget.Sizes.{heap_of};
ghost use Rattle.ppq_pass.specs.Passed.{IsOf, PassTells, KeptSlots, CountsPassPush, with_one, IsRefusedPush, IsKnown};
ghost use Rattle.ppq_pass.specs.ppq_array.declared.store_fault.StoreFault.TheVariants.{Device};
ghost use Rattle.ppq_session.specs.Limited.{HoldsNothing, IsLimited, limited};
ghost use Rattle.ppq_session.specs.Dealing.{IsGoing, Adds, records_for};
ghost use Rattle.ppq_session.specs.Batches.{AreAbove};

use crate::line::Line;
use crate::lines::push_named;
use crate::session_pass::SessionPass;
use ppq_pass::{Full, Host, Pass, QueueFault, Record, Shared, Slot};
use std::marker::Model;

/// A pass of a limit session: what one worker adds records to that are not below the session's limit.
///
/// It is a [`Pass`] with its limit. Contracts see the pass and the limit. Where the slots of the session
/// tell, no record of the pass is below the limit, unless a call of one of its slots failed.
#[derive(Drop)]
pub struct LimitPass<S: Slot, R: Record> {
    // The pass.
    pass: Pass<S, R>,
    // The smallest record that may be added.
    limit: R,
}

impl<S: Slot, R: Record> Model for LimitPass<S, R> {
    ghost use Rattle.ppq_session.specs.Limited.{LimitHolding, limited, IsLimited};

    ghost Value = { LimitHolding S R };

    ghost view = { λ p. limited p.pass p.limit };

    ghost invariant = { λ p. IsLimited S.shown R.Ord.cmp p.limit p.pass };
}

impl<S: Slot, R: Record> LimitPass<S, R> {
    // A pass without records, with the limit of its session.
    pub(crate) fn of(pass: Pass<S, R>, limit: R) -> Self
        requires { HoldsNothing pass }
        ensures { result ≡ limited pass limit }
    {
        LimitPass { pass, limit }
    }

    /// The limit of the session: no record below it is added.
    #[inline]
    pub fn limit(&self) -> R
        ensures { result ≡ self.now.limit }
    {
        self.limit
    }

    /// Adds a record that is not below the limit, if the heap has room. `Full` is returned if and only if
    /// the heap holds `H` records, and nothing has changed then. It makes no comparison, and touches nothing
    /// that is shared.
    #[inline]
    pub fn try_push(&mut self, r: R) -> Result<(), Full>
        requires { is_before R.Ord.cmp r self.old.limit ≡ false }
        ensures full { IsErr result ↔ (self.old.pass.in_heap ≡ heap_of self.old.pass.key.sizes) }
        ensures added { OnOk result (IsSameBag self.new.pass.bag (r ∷ self.old.pass.bag)) }
        ensures one { OnOk result (self.new.pass ≡ with_one self.old.pass self.new.pass.bag) }
        ensures same { OnErr result (self.new.pass ≡ self.old.pass) }
        ensures limit { self.new.limit ≡ self.old.limit }
    {
        self.pass.try_push(r)
    }
}

impl<S: Slot + Send, R: Record + Send> LimitPass<S, R> {
    /// Adds a record that is not below the limit. Where the heap has room it makes no comparison, and touches
    /// nothing that is shared. Where the heap is full, it is sorted first and stored as a run: `h` takes of
    /// buffers, or else a draw and a write for each block of the heap and of all runs in buffers.
    ///
    /// Each refusal hands the record back. `NoFreeBlock`: the multiset is as it was; the row is drawn to
    /// its end, and the slots that the pass drew, which stay with it, are too few. A later push tries
    /// again. `Device`: a call of the slot with that number failed, now or before, and from then on as for
    /// [`Pass::push`].
    pub fn push<H: Host>(
        &mut self,
        rt: &H,
        shared: &Shared<S, R>,
        r: R,
    ) -> Result<(), (R, QueueFault)>
    where
        H::Dir: Send,
        requires of { IsOf shared.now self.old.pass }
        requires limit { is_before R.Ord.cmp r self.old.limit ≡ false }
        ensures added { OnOk result (PassTells S.shown self.old.pass → IsSameBag self.new.pass.bag (r ∷ self.old.pass.bag)) }
        ensures size { OnOk result (self.new.pass.size ≡ self.old.pass.size + 1) }
        ensures accepted { OnOk result (self.new.pass.accepted ≡ self.old.pass.accepted + 1) }
        ensures same { OnOk result (self.new.pass.refused ≡ self.old.pass.refused) }
        ensures sound { OnOk result (self.new.pass.failed ≡ None) }
        ensures stored { OnOk result (self.old.pass.in_heap ≡ heap_of self.old.pass.key.sizes → self.new.pass.in_heap ≡ 1) }
        ensures easy { self.old.pass.failed ≡ None → self.old.pass.in_heap < heap_of self.old.pass.key.sizes → IsOk result × (self.new.pass ≡ with_one self.old.pass self.new.pass.bag) }
        ensures back { IfErr result (λ e. e.0 ≡ r) }
        ensures refused { IfErr result (λ e. IsRefusedPush self.old.pass self.new.pass e.1) }
        ensures latched { (number : ℕ) → self.old.pass.failed ≡ Some number → (result ≡ Err (r, Device number)) × (self.new.pass ≡ self.old.pass) }
        ensures tells { PassTells S.shown self.old.pass → PassTells S.shown self.new.pass }
        ensures kept { KeptSlots self.old.pass self.new.pass }
        ensures key { self.new.pass.key ≡ self.old.pass.key }
        ensures counted { CountsPassPush self.old.pass self.new.pass result }
        ensures unmoved { self.new.limit ≡ self.old.limit }
    {
        self.pass.push(rt, shared, r)
    }

    // Pushes the records of the lines with this number, in their order, up to the first that is refused.
    pub(crate) fn push_named<H: Host>(
        &mut self,
        rt: &H,
        shared: &Shared<S, R>,
        lines: &[Line<R>],
        number: u32,
    )
    where
        H::Dir: Send,
        requires above { AreAbove R.Ord.cmp self.old.limit lines.now }
        requires of { IsOf shared.now self.old.pass }
        requires going { IsGoing self.old.pass }
        ensures added { Adds S.shown (records_for number lines.now) self.old.pass self.new.pass }
        ensures limit { self.new.limit ≡ self.old.limit }
    {
        push_named(rt, shared, lines, number, &mut self.pass);
    }
}

impl<S: Slot, R: Record> LimitPass<S, R> {
    /// How many of its pushes returned `Ok`.
    #[inline]
    pub fn accepted(&self) -> u64
        ensures { result ≡ self.now.pass.accepted }
    {
        self.pass.accepted()
    }

    /// Whether a push of it returned `NoFreeBlock`.
    #[inline]
    pub fn refused(&self) -> bool
        ensures { result ≡ self.now.pass.refused }
    {
        self.pass.refused()
    }

    /// The number of the slot a call of which failed first.
    #[inline]
    pub fn failed(&self) -> Option<u32>
        ensures { result ≡ self.now.pass.failed }
    {
        self.pass.failed()
    }

    /// What always holds of it, as a clause for the proof of whoever calls it. It does nothing.
    #[inline]
    pub fn known(&self)
        ensures limited { IsLimited S.shown R.Ord.cmp self.now.limit self.now.pass }
        ensures pass { IsKnown self.now.pass }
    {
        self.pass.known();
    }
}

impl<S: Slot, R: Record> SessionPass<S, R> for LimitPass<S, R> {
    ghost use Rattle.std.specs.Prelude.{Some};

    ghost pass = { λ p. p.pass };

    ghost limit = { λ p. Some p.limit };

    fn is_going(&self) -> bool {
        self.pass.is_going()
    }

    fn into_inner(self) -> Pass<S, R> {
        self.pass
    }
}
