//! An open limit session as one value.
ghost use Rattle.std.specs.Prelude.{◌≡◌, ◌≤◌, ◌<◌, ◌+◌, ◌++◌, ℕ, false, [], List, All, Some, None, Err, IsTrue, IfOk, IfErr, OnOk, length, take, vec_capacity};
ghost use Rattle.ppq_pass.specs.ppq_record.Order.{is_before};
ghost use Rattle.ppq_pass.specs.ppq_outside.Shown.{AllTell};
ghost use Rattle.ppq_queue.specs.Holding.{Holding};
ghost use Rattle.ppq_session.specs.declared.fault.BeginFault.TheVariants.{Device};
ghost use Rattle.ppq_session.specs.Ends.{NamesFirst, accepted_of};
ghost use Rattle.ppq_session.specs.Dealing.{EachAdds, records_in, records_for};
ghost use Rattle.ppq_session.specs.Asks.{answers_to, left_after, removed_in, pops_in};
ghost use Rattle.ppq_session.specs.Batches.{passes_of};
ghost use Rattle.ppq_session.specs.Sessions.{IsUnbegun};
ghost use Rattle.ppq_session.specs.Readied.{MemoryLeavesLimitReady};
ghost use Rattle.ppq_session.specs.BulkSession.{HasBuffers, resident_in};
ghost use Rattle.ppq_session.specs.Fronts.{RowHadFree};
ghost use Rattle.ppq_session.specs.LimitSessions.{AreGoing, HasStopped, InLimits, IsOver, IsOverBy, begun_in};

use crate::begin_limit::limit_begin;
use crate::end_limit::limit_end;
use crate::going::limited_are_going;
use crate::running::run_both;
use crate::{Ask, BeginFault, Front, LimitPass, Line, SessionEnd, Shared};
use ppq_pass::{Gate, Host, QueueFault, Record, Slot, record_laws};
use ppq_queue::Queue;
use std::alloc::Global;
use std::marker::Model;

/// An open limit session of a queue: its front, what its passes share, and a pass for each worker.
///
/// Contracts see the front and the passes, in the order of their workers.
#[derive(Drop)]
pub struct LimitSession<S: Slot + Send + Sync, R: Record + Send + Sync> {
    front: Front<S, R>,
    shared: Shared<S, R>,
    passes: Vec<LimitPass<S, R>>,
}

impl<S: Slot + Send + Sync, R: Record + Send + Sync> Model for LimitSession<S, R> {
    ghost use Rattle.std.specs.Prelude.{◌≡◌, All};
    ghost use Rattle.ppq_pass.specs.Passed.{IsOf};
    ghost use Rattle.ppq_session.specs.LimitSession.{AreLimited, shared_of};
    ghost use Rattle.ppq_session.specs.LimitSessions.{LimitSessionHolding};

    ghost Value = { LimitSessionHolding S R };

    ghost view = { λ s. record { front = s.front; passes = s.passes.items } };

    ghost invariant = { λ s. AreLimited s.front s.passes.items × (s.shared ≡ shared_of s.front) × All (λ p. IsOf s.shared p.pass) s.passes.items };
}

impl<S: Slot + Send + Sync, R: Record + Send + Sync> LimitSession<S, R> {
    /// Begins a limit session of the queue with this limit. The memory that it needs is taken now.
    ///
    /// The rest of the extract buffer and each heap that is not empty are stored as runs first, which costs a
    /// sort and a store of each heap; levels of runs are merged after each.
    ///
    /// Each refusal hands the queue back, with the records that it had unless a block failed, and the queue
    /// counts the session.
    pub fn begin<H: Host, G: Gate>(
        rt: &H,
        alloc: Global,
        queue: Queue<S, R>,
        limit: R,
        gate: &G,
    ) -> Result<LimitSession<S, R>, (Queue<S, R>, BeginFault)>
    where
        H::Dir: Send,
        ensures session { IfOk result (λ session. InLimits S.shown queue limit [] queue.bag 0 session) }
        ensures going { IfOk result AreGoing }
        ensures refused { IfErr result (λ back. IsUnbegun queue (begun_in queue) back.0 back.1) }
        ensures memory { IfErr result (λ back. MemoryLeavesLimitReady queue back.0 back.1) }
        ensures latched { (number : ℕ) → queue.failed ≡ Some number → result ≡ Err (begun_in queue, Device number) }
    {
        match limit_begin(rt, alloc, queue, limit, gate) {
            Ok((front, shared, passes)) => {
                front.known();
                Ok(LimitSession {
                    front,
                    shared,
                    passes,
                })
            }
            Err((queue, fault)) => Err((queue, fault)),
        }
    }

    // Whether no push of any pass was refused, and no call of a slot of the front failed.
    fn is_going(&self) -> bool
        ensures all { IsTrue result → AreGoing self.now }
        ensures stopped { result ≡ false → HasStopped self.now }
    {
        match self.front.failed() {
            None => limited_are_going(self.passes.as_slice()),
            Some(_) => false,
        }
    }

    /// Runs a batch: each pass adds the records of the lines that name it, in their order, on a thread of
    /// its own, after its worker has entered the gate, also where no line names it; beside them the asks are
    /// answered in their order. Whether all was done. It costs a thread for each pass, and each pass looks at
    /// all lines.
    ///
    /// The answers do not depend on the lines, since no record of a line is below the limit. A pass stops at
    /// its first record that is refused, and the others go on. The asks end at the first that meets a fault
    /// of a block. The number of the front's pops rises by one for each ask for a pop whose answer is a
    /// record, and by nothing else.
    pub fn run<H: Host, G: Gate>(
        &mut self,
        rt: &H,
        lines: &[Line<R>],
        asks: &[Ask],
        answers: &mut Vec<Option<R>>,
        gate: &G,
    ) -> bool
    where
        H::Dir: Send,
        requires named { All (λ line. line.pass < self.old.front.sizes.workers) lines.now }
        requires above { All (λ line. is_before R.Ord.cmp line.record self.old.front.limit ≡ false) lines.now }
        requires going { AreGoing self.old }
        requires no_answer { answers.old.items ≡ [] }
        requires room { length asks.now ≤ vec_capacity answers.old }
        ensures all { IsTrue result → AreGoing self.new }
        ensures stopped { result ≡ false → HasStopped self.new }
        ensures answers { (queue : Holding R) (limit : R) (given left : List R) (popped : ℕ) → InLimits S.shown queue limit given left popped self.old → AllTell queue.slots → answers.new.items ≡ take (length answers.new.items) (answers_to R.Ord.cmp limit left asks.now) }
        ensures answered { self.new.front.failed ≡ None → length answers.new.items ≡ length asks.now }
        ensures fewer { length answers.new.items ≤ length asks.now }
        ensures popped { self.new.front.popped ≡ self.old.front.popped + removed_in asks.now answers.new.items }
        ensures room { vec_capacity answers.new ≡ vec_capacity answers.old }
        ensures session { (queue : Holding R) (limit : R) (given left : List R) (popped : ℕ) → InLimits S.shown queue limit given left popped self.old → InLimits S.shown queue limit (given ++ records_in lines.now) (left_after R.Ord.cmp limit left asks.now) (popped + pops_in asks.now) self.new }
        ensures each { EachAdds S.shown (λ pass. records_for pass lines.now) (passes_of self.old.passes) (passes_of self.new.passes) }
        ensures sizes { self.new.front.sizes ≡ self.old.front.sizes }
        ensures limit { self.new.front.limit ≡ self.old.front.limit }
    {
        let LimitSession {
            front,
            shared,
            passes,
        } = self;
        record_laws::<R>();
        front.known();
        run_both(
            rt,
            front,
            shared,
            passes.as_mut_slice(),
            lines,
            asks,
            answers,
            gate,
        );
        self.is_going()
    }

    /// Ends the session: the queue with the records that are left of what it had and those that its passes
    /// accepted. The runs of the passes become runs of the queue, and levels are merged. It allocates nothing.
    ///
    /// `Ok`: the queue has all records that were given, and counts those that the front has left and those
    /// that the passes accepted, whatever the blocks gave back. `NoFreeBlock`: a pass or a merge of levels found no
    /// blocks, and no accepted record is lost. `Device`: the block with that number failed; the first pass that
    /// met a fault is named, else the front, and else a merge of levels.
    pub fn end<H: Host, G: Gate>(self, rt: &H, gate: &G) -> (Queue<S, R>, Result<(), QueueFault>)
    where
        H::Dir: Send,
        ensures all { OnOk result.1 (AreGoing self) }
        ensures over { (queue : Holding R) (limit : R) (given left : List R) (popped : ℕ) → InLimits S.shown queue limit given left popped self → IsOver queue given left popped result.0 result.1 }
        ensures size { OnOk result.1 (result.0.size ≡ self.front.size + accepted_of (passes_of self.passes)) }
        ensures left { IfErr result.1 (IsOverBy S.shown self result.0) }
        ensures first { NamesFirst (passes_of self.passes) self.front.failed result.1 }
    {
        self.front.known();
        let all = limited_are_going(self.passes.as_slice());
        let (queue, end) = limit_end(rt, self.front, self.shared, self.passes, gate);
        match end {
            SessionEnd::Stopped(fault) => (queue, Err(fault)),
            SessionEnd::Whole if all => (queue, Ok(())),
            SessionEnd::Whole => (queue, Err(QueueFault::NoFreeBlock)),
        }
    }

    /// What holds of every open session, as clauses for the proof of whoever calls it. It does nothing.
    ///
    /// All blocks that no run had when the session began are in the row from which its passes draw (`row`). Those
    /// that the front frees stay with it until the session ends. All buffers of the budget are with the front, in
    /// the pool, or two with each pass (`buffers`); with full heaps and all else that counts they are within it
    /// (`memory`).
    #[inline]
    pub fn known(&self)
        ensures row { RowHadFree S.shown self.now.front }
        ensures buffers { HasBuffers self.now.front.sizes self.now.front.buffers self.now.front.pool }
        ensures memory { resident_in self.now.front.sizes self.now.front.buffers self.now.front.pool ≤ self.now.front.sizes.memory }
    {
        self.front.known();
    }
}
