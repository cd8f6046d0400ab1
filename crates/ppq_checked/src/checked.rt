//! A block that notices when what is read is not what was written.
ghost use Rattle.std.specs.Prelude.{◌≡◌, ◌⊎◌, ◌↔◌, Some, None, length, IsSome, OnOk, OnErr, IsTrue};
ghost use Rattle.ppq_outside.specs.Told.{next_count};
ghost use Rattle.ppq_outside.specs.Shown.{IsWritten, IsRead, Tells};
ghost use Rattle.ppq_checked.specs.Sums.{sum_of};
ghost use Rattle.ppq_checked.specs.Kept.{CheckedState, HasSum, shown_over};

use crate::{UntrustedSlot, sum};
use ppq_outside::{Failed, Host, Slot};
use std::marker::Model;

/// A block over another one, the slot inside, that keeps the sum of the bytes of the last write, if that write
/// returned Ok. A read of bytes that have another sum is a failed call, and so is each read while no sum is kept.
///
/// The slot inside may give back other bytes than it was given. This block never does: it has the whole contract
/// of a [`Slot`], and if the contents of the slot inside are visible to proofs, a read that returns Ok gives what
/// was written last. What contracts see of it is what the slot inside shows, but for two counts: its faults are
/// those of the slot inside and the reads that it refused itself, and its reads are those that returned Ok. If
/// the slot inside is honest too, no read of a block that was written is refused for its sum.
#[derive(Drop)]
pub struct Checked<S: UntrustedSlot> {
    // the slot inside
    inside: S,
    // the sum of what was last written, if that write returned Ok
    sum: Option<u64>,
    // how many reads returned Ok
    reads: u64,
    // how many reads of the slot inside gave bytes that have not the sum that is kept, or were made with none
    differed: u64,
}

impl<S: UntrustedSlot> Model for Checked<S> {
    ghost use Rattle.ppq_checked.specs.Kept.{CheckedState, HoldsSum};

    ghost Value = { CheckedState S };

    ghost view = { λ s. record { inside = s.inside; sum = s.sum; reads = s.reads; differed = s.differed } };

    ghost invariant = { λ s. HoldsSum s.sum (S.shown s.inside).told };
}

impl<S: UntrustedSlot> Checked<S> {
    /// A block over another one. It keeps no sum before it is written, so each read before that is a failed call.
    pub fn new(inside: S) -> Self
        ensures inside { result.inside ≡ inside }
        ensures sum { result.sum ≡ None }
        ensures reads { result.reads ≡ (S.shown inside).reads }
        ensures differed { result.differed ≡ 0 }
    {
        let reads = inside.reads();
        Checked {
            inside,
            sum: None,
            reads,
            differed: 0,
        }
    }

    /// How many reads gave bytes of another sum than those that were written, or came while no sum was kept: before
    /// the first write, or after one that failed. Each was a failed call. It saturates at 2^64 - 1.
    pub fn differed(&self) -> u64
        ensures { result ≡ self.now.differed }
    {
        self.differed
    }
}

// Whether a sum is kept, and bytes have it.
fn has_sum(kept: Option<u64>, bytes: &[u8]) -> bool
    ensures { IsTrue result ↔ HasSum kept bytes.now }
{
    match kept {
        None => false,
        Some(kept) => sum(bytes) == kept,
    }
}

impl<S: UntrustedSlot> Slot for Checked<S> {
    ghost shown = { shown_over S.shown };

    fn number(&self) -> u32 {
        self.inside.number()
    }

    fn size(&self) -> usize {
        self.inside.size()
    }

    fn faults(&self) -> u64 {
        self.inside.faults().saturating_add(self.differed)
    }

    fn writes(&self) -> u64 {
        self.inside.writes()
    }

    fn reads(&self) -> u64 {
        self.reads
    }

    /// One block transfer, and then one sum of the bytes, which is kept; a failed write keeps none.
    fn write<H: Host>(&mut self, rt: &H, bytes: &[u8]) -> Result<(), Failed>
        requires { length bytes.now ≡ (S.shown self.old.inside).size }
        ensures inside { IsWritten result bytes.now (S.shown self.old.inside) (S.shown self.new.inside) }
        ensures kept { OnOk result (self.new.sum ≡ Some (sum_of bytes.now)) }
        ensures lost { OnErr result (self.new.sum ≡ None) }
        ensures differed { self.new.differed ≡ self.old.differed }
        ensures shown { IsWritten result bytes.now (shown_over S.shown self.old) (shown_over S.shown self.new) }
    {
        let answer = self.inside.write(rt, bytes);
        self.sum = match answer {
            Ok(()) => Some(sum(bytes)),
            Err(_) => None,
        };
        answer
    }

    /// One block transfer, and then one sum of the bytes, if a sum is kept. Ok is returned only if the bytes have
    /// that sum, and `Failed` only if the slot inside failed, they have another, or none is kept.
    #[tactic(auto, using(crate::proofs::Given::given_is))]
    fn read<H: Host>(&mut self, rt: &H, into: &mut [u8]) -> Result<(), Failed>
        requires { length into.old ≡ (S.shown self.old.inside).size }
        ensures noticed { OnOk result (HasSum self.old.sum into.new) }
        ensures cause { OnErr result (((S.shown self.new.inside).faults ≡ next_count (S.shown self.old.inside).faults) ⊎ (HasSum self.old.sum into.new → ⊥)) }
        ensures tells { S.honest self.old.inside → Tells (S.shown self.old.inside) → IsSome self.old.sum → OnErr result ((S.shown self.new.inside).faults ≡ next_count (S.shown self.old.inside).faults) }
        ensures differed { S.honest self.old.inside → Tells (S.shown self.old.inside) → IsSome self.old.sum → self.new.differed ≡ self.old.differed }
        ensures kept { self.new.sum ≡ self.old.sum }
        ensures shown { IsRead result into.new (shown_over S.shown self.old) (shown_over S.shown self.new) }
    {
        let answer = self.inside.read(rt, into);
        if answer.is_err() {
            return answer;
        }
        if !has_sum(self.sum, into) {
            self.differed = self.differed.saturating_add(1);
            return Err(Failed);
        }
        self.reads = self.reads.saturating_add(1);
        Ok(())
    }

    fn expect<H: Host>(&self, rt: &H) -> bool {
        self.inside.expect(rt)
    }
}
