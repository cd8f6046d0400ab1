//! An open bulk session, as one value.
ghost use Rattle.std.specs.Prelude.{◌≡◌, ◌≤◌, ◌<◌, ◌++◌, ◌↔◌, [], ℕ, List, All, Any, Some, None, Err, IsTrue, false, IfOk, IfErr, OnOk, length};
ghost use Rattle.ppq_queue.specs.Holding.{Holding, session_begun};
ghost use Rattle.ppq_session.specs.declared.fault.BeginFault.TheVariants.{Device};
ghost use Rattle.ppq_session.specs.Ends.{NamesFirst};
ghost use Rattle.ppq_session.specs.Dealing.{IsGoing, HasEnded, EachAdds, records_in, records_for, part_for};
ghost use Rattle.ppq_session.specs.Sessions.{InSession, IsLoaded, IsLeftBy, IsUnbegun};
ghost use Rattle.ppq_session.specs.Readied.{MemoryLeavesBulkReady};
ghost use Rattle.ppq_session.specs.BulkSession.{HasBuffers, HasPool, RowHasFree, resident_in};

use crate::begin::bulk_begin;
use crate::dealing::deal;
use crate::end::bulk_end;
use crate::going::are_going;
use crate::lines::push_lines;
use crate::{BeginFault, Bulk, Line, Maker, Pass, SessionEnd, Shared};
use ppq_pass::{Gate, Host, QueueFault, Record, Slot};
use ppq_queue::Queue;
use std::alloc::Global;
use std::marker::Model;

/// An open session of a queue: what is left of the queue, and a pass for each worker.
///
/// Contracts see what is left and the passes, in the order of their workers. `InSession` says which
/// records were given to them.
#[derive(Drop)]
pub struct Session<S: Slot + Send + Sync, R: Record + Send + Sync> {
    // What is left of the queue.
    bulk: Bulk<S, R>,
    // What all passes share.
    shared: Shared<S, R>,
    // A pass for each worker.
    passes: Vec<Pass<S, R>>,
}

impl<S: Slot + Send + Sync, R: Record + Send + Sync> Model for Session<S, R> {
    ghost use Rattle.std.specs.Prelude.{◌≡◌};
    ghost use Rattle.ppq_session.specs.BulkSession.{AreOf, keys_of, shared_by};
    ghost use Rattle.ppq_session.specs.Sessions.{SessionHolding};

    ghost Value = { SessionHolding S R };

    ghost view = { λ s. record { bulk = s.bulk; passes = s.passes.items } };

    ghost invariant = { λ s. AreOf s.bulk (keys_of s.passes.items) × (s.shared ≡ shared_by s.bulk) };
}

impl<S: Slot + Send + Sync, R: Record + Send + Sync> Session<S, R> {
    /// Begins a session of a queue, with a pass for each worker. All memory that it needs is taken now.
    ///
    /// Each refusal hands the queue back, with the records that it had unless a block failed. A queue of
    /// which a block failed before comes back as it was, but it counts the session.
    pub fn begin<H: Host, G: Gate>(
        rt: &H,
        alloc: Global,
        queue: Queue<S, R>,
        gate: &G,
    ) -> Result<Session<S, R>, (Queue<S, R>, BeginFault)>
    where
        H::Dir: Send,
        ensures session { IfOk result (λ session. InSession S.shown queue [] session) }
        ensures going { IfOk result (λ session. All IsGoing session.passes) }
        ensures refused { IfErr result (λ back. IsUnbegun queue queue back.0 back.1) }
        ensures memory { IfErr result (λ back. MemoryLeavesBulkReady queue back.0 back.1) }
        ensures latched { (number : ℕ) → queue.failed ≡ Some number → result ≡ Err (session_begun queue, Device number) }
    {
        match bulk_begin(rt, alloc, queue, gate) {
            Ok((bulk, shared, passes)) => Ok(Session {
                bulk,
                shared,
                passes,
            }),
            Err((queue, fault)) => Err((queue, fault)),
        }
    }

    /// Adds all records of a maker: each pass gets an equal part, which its worker makes and adds on a thread of
    /// its own. Whether all were added.
    pub fn deal<H: Host, M: Maker<R> + Sync, G: Gate>(
        &mut self,
        rt: &H,
        maker: &M,
        gate: &G,
    ) -> bool
    where
        H::Dir: Send,
        requires going { All IsGoing self.old.passes }
        ensures all { IsTrue result ↔ All IsGoing self.new.passes }
        ensures ended { result ≡ false → Any HasEnded self.new.passes }
        ensures session { (queue : Holding R) → (records : List R) → InSession S.shown queue records self.old → InSession S.shown queue (records ++ M.rest maker.now) self.new }
        ensures each { EachAdds S.shown (part_for (length self.old.passes) (M.rest maker.now)) self.old.passes self.new.passes }
        ensures bulk { self.new.bulk ≡ self.old.bulk }
    {
        self.bulk.known();
        deal(rt, gate, &self.shared, maker, self.passes.as_mut_slice())
    }

    /// Adds the records of lines: each worker takes those with its number, in their order. Whether all were
    /// added.
    pub fn push<H: Host, G: Gate>(&mut self, rt: &H, lines: &[Line<R>], gate: &G) -> bool
    where
        H::Dir: Send,
        requires named { All (λ line. line.pass < self.old.bulk.sizes.workers) lines.now }
        requires going { All IsGoing self.old.passes }
        ensures all { IsTrue result ↔ All IsGoing self.new.passes }
        ensures ended { result ≡ false → Any HasEnded self.new.passes }
        ensures session { (queue : Holding R) → (records : List R) → InSession S.shown queue records self.old → InSession S.shown queue (records ++ records_in lines.now) self.new }
        ensures each { EachAdds S.shown (λ pass. records_for pass lines.now) self.old.passes self.new.passes }
        ensures bulk { self.new.bulk ≡ self.old.bulk }
    {
        self.bulk.known();
        push_lines(rt, gate, &self.shared, lines, self.passes.as_mut_slice())
    }

    /// Ends the session: the queue with the records that it had and those that its passes accepted. It takes
    /// no memory.
    ///
    /// `Ok`: the queue has all records that were given. `NoFreeBlock`: a pass or a merge of levels found no
    /// blocks, and the queue has all records that were accepted. `Device`: the block with that number failed,
    /// and records may be lost; the first pass that met a fault is named, and else a merge of levels.
    pub fn end<H: Host, G: Gate>(self, rt: &H, gate: &G) -> (Queue<S, R>, Result<(), QueueFault>)
    where
        H::Dir: Send,
        ensures all { OnOk result.1 (All IsGoing self.passes) }
        ensures loaded { (queue : Holding R) → (records : List R) → InSession S.shown queue records self → IsLoaded queue records result.0 result.1 }
        ensures left { IfErr result.1 (IsLeftBy S.shown self result.0) }
        ensures first { NamesFirst self.passes None result.1 }
    {
        let Session {
            bulk,
            shared,
            passes,
        } = self;
        bulk.known();
        let all = are_going(passes.as_slice());
        let (queue, end) = bulk_end(rt, bulk, shared, passes, gate);
        match end {
            SessionEnd::Stopped(fault) => (queue, Err(fault)),
            SessionEnd::Whole if all => (queue, Ok(())),
            SessionEnd::Whole => (queue, Err(QueueFault::NoFreeBlock)),
        }
    }

    /// What holds of every open session, as clauses for the proof of whoever calls it. It does nothing.
    ///
    /// All blocks that no run of the queue has are in the row from which its passes draw (`row`), so no block is
    /// free and out of their reach. All buffers that no run of the queue has are in the pool (`pool`), with those
    /// that stay with the queue and two for each pass they are those of the budget (`buffers`). With full heaps and
    /// all else that counts they are within it (`memory`).
    #[inline]
    pub fn known(&self)
        ensures row { RowHasFree S.shown self.now.bulk }
        ensures buffers { HasBuffers self.now.bulk.sizes self.now.bulk.buffers self.now.bulk.pool }
        ensures pool { HasPool self.now.bulk.sizes self.now.bulk.run_buffers self.now.bulk.pool }
        ensures memory { resident_in self.now.bulk.sizes self.now.bulk.buffers self.now.bulk.pool ≤ self.now.bulk.sizes.memory }
    {
        self.bulk.known();
    }
}
