//! What the owner of a queue keeps while a session is on.
ghost use Rattle.std.specs.Prelude.{◌≡◌, ◌≤◌};
ghost use Rattle.ppq_pass.specs.ppq_budget.Sizes.{AreInRange};
ghost use Rattle.ppq_session.specs.BulkSession.{HasBuffers, HasPool, RowHasFree, resident_in};
ghost use Rattle.ppq_session.specs.State.{bulk_holding, IsBulk};

use crate::parts::BulkParts;
use ppq_pass::{Record, Slot};
use std::marker::Model;

/// What the owner of a queue keeps while a bulk session is on: the runs that were there.
///
/// Contracts see the multiset of its records, how many the queue had when the session began, and all that
/// tells which passes are of this session.
#[derive(Drop)]
pub struct Bulk<S: Slot + Send + Sync, R: Record + Send + Sync> {
    parts: BulkParts<S, R>,
}

impl<S: Slot + Send + Sync, R: Record + Send + Sync> Model for Bulk<S, R> {
    ghost use Rattle.ppq_session.specs.BulkSession.{BulkHolding};
    ghost use Rattle.ppq_session.specs.State.{bulk_holding, IsBulk};

    ghost Value = { BulkHolding S R };

    ghost view = { λ b. bulk_holding S.shown R.record_of R.WIDTH b.parts };

    ghost invariant = { λ b. IsBulk S.shown R.Ord.cmp R.record_of R.WIDTH b.parts };
}

impl<S: Slot + Send + Sync, R: Record + Send + Sync> Bulk<S, R> {
    // A bulk of these parts.
    pub(crate) fn of(parts: BulkParts<S, R>) -> Self
        requires { IsBulk S.shown R.Ord.cmp R.record_of R.WIDTH parts }
        ensures { result ≡ bulk_holding S.shown R.record_of R.WIDTH parts }
    {
        Bulk { parts }
    }

    // Its parts.
    pub(crate) fn into_parts(self) -> BulkParts<S, R>
        ensures whole { IsBulk S.shown R.Ord.cmp R.record_of R.WIDTH result }
        ensures shows { bulk_holding S.shown R.record_of R.WIDTH result ≡ self }
    {
        self.parts
    }

    /// What holds of every bulk, as clauses for the proof of whoever calls it. It does nothing.
    #[inline]
    pub fn known(&self)
        ensures range { AreInRange self.now.sizes }
        ensures row { RowHasFree S.shown self.now }
        ensures buffers { HasBuffers self.now.sizes self.now.buffers self.now.pool }
        ensures pool { HasPool self.now.sizes self.now.run_buffers self.now.pool }
        ensures memory { resident_in self.now.sizes self.now.buffers self.now.pool ≤ self.now.sizes.memory }
    {
        let _count = self.parts.count;
    }
}
