//! The queue.
ghost use Rattle.std.specs.Prelude.{◌≡◌, ◌≤◌, ◌<◌, ◌+◌, ◌-◌, ◌*◌, ◌^◌, ◌↔◌, ◌⊎◌, ◌∷◌, [], ℕ, All, length, map, Some, None, IsNone, IsOk, Err, IsErrOf, IfOk, IfErr, OnOk, max, min, true, false};
ghost use Rattle.ppq_heap.specs.ppq_record.Bag.{IsSameBag, least};
ghost use Rattle.ppq_extract.specs.ppq_budget.Sizes.{AreInRange, fixed_of, heap_of, heaps_of, batch_of, pool_of};
ghost use Rattle.ppq_extract.specs.ppq_outside.Shown.{AllTell};
ghost use Rattle.ppq_extract.specs.ppq_array.Kept.{SameSums, HasFailed, all_writes};
ghost use Rattle.ppq_extract.specs.ppq_array.declared.store_fault.StoreFault.TheVariants.{NoFreeBlock, Device};
ghost use Rattle.ppq_spill.specs.ppq_counts.Account.{too_heavy};
ghost use Rattle.ppq_spill.specs.ppq_counts.Tally.{no_tally, accepting, beginning, IsCounting, runs_of, bound_of};
ghost use Rattle.ppq_queue.specs.Bulk.{IsEnd, EndsBy, BulkLeaves};
ghost use Rattle.ppq_queue.specs.Handed.{holding_of, IsWhole};
ghost use Rattle.ppq_queue.specs.Holding.{resident_of, with_one, IsAbove, NamesNeed, AreNewSlots, IsSpent, IsReady, IsRefusal, IsLeast, TookLeast, Keeps, Stays, SameRecords, QueueLeaves, HasAdded, HasTaken, MayPut, CountsAs, CountsPush, CountsRoom, CountsStore, UsesBlocks, session_begun, limit_begun};

use crate::berths::{berth_slots, give_back};
use crate::bulk::{empty_on_error, keep_below};
use crate::choice::{first_of_two, take_first};
use crate::parts::Parts;
use crate::store::Store;
use crate::wanted::Wanted;
use crate::{LimitEnd, OpenFault, Out, QueueFault, QueueParts};
use ppq_extract::{Gate, Host, Sizes, Slot, Supply};
use ppq_heap::{Heaps, Record, record_laws};
use ppq_spill::{Counts, latch};
use std::alloc::Global;
use std::marker::Model;

/// A priority queue of one owner, the smallest record first, within a budget in records, with the blocks of
/// a device behind it.
///
/// Contracts see the multiset of its records as far as its slots tell, how many there are, its sizes, the
/// greatest size that it had, was to get by a push, or counted in a session, and all its slots. They see three
/// numbers too that never fall: records accepted, stores of a full heap begun, and sessions begun. These bound
/// what the queue writes (`known`).
#[derive(Drop)]
pub struct Queue<S: Slot + Send + Sync, R: Record + Send + Sync> {
    // The runs, the extract buffer, and what works on them.
    store: Store<S, R>,
    // The latest records: a heap for each worker, of which pushes fill the first.
    heaps: Heaps<R>,
    // How many records there are.
    count: u64,
    // The greatest size so far, in records, with those that a limit session popped until its end.
    peak: u64,
    // The block that failed first; from then on the queue is stopped.
    failed: Option<u32>,
    // Whether a limit session was begun, which stores heaps that are not full.
    limited: bool,
    // How many records were accepted, how many stores of a full heap were begun, and how many sessions.
    counts: Counts,
    // The emptied list of the slots that came in.
    slots: Vec<S>,
}

impl<S: Slot + Send + Sync, R: Record + Send + Sync> Model for Queue<S, R> {
    ghost use Rattle.std.specs.Prelude.{◌≡◌, [], vec_capacity};
    ghost use Rattle.ppq_queue.specs.Handed.{viewed, QueueStands};
    ghost use Rattle.ppq_queue.specs.Holding.{Holding};

    ghost Value = { Holding R };

    ghost view = { λ q. viewed S.shown R.record_of R.WIDTH q.store q.heaps q.count q.peak q.failed q.limited q.counts };

    ghost invariant = { λ q. QueueStands S.shown R.Ord.cmp R.record_of R.WIDTH q.store q.heaps q.count q.peak q.failed q.limited q.counts (vec_capacity q.slots) × (q.slots.items ≡ []) };
}

impl<S: Slot + Send + Sync, R: Record + Send + Sync> Queue<S, R> {
    /// A queue without records over these slots, which are free in the order of the list. It takes all the
    /// memory that it will ever have: a heap of `H` records for each worker, an extract buffer, the buffers
    /// of its lanes, as many buffers more as the budget leaves room for, and a box for each slot.
    ///
    /// `TooSmall` comes exactly where the budget is below its fixed part, which it names, unless memory is
    /// wanting. A refusal hands the slots back.
    pub fn open(
        alloc: Global,
        sizes: Sizes,
        slots: Vec<S>,
    ) -> Result<Queue<S, R>, (Vec<S>, OpenFault)>
        requires { AreNewSlots sizes R.WIDTH (map S.shown slots.items) }
        ensures bag { IfOk result (λ q. q.bag ≡ []) }
        ensures size { IfOk result (λ q. q.size ≡ 0) }
        ensures sizes { IfOk result (λ q. q.sizes ≡ sizes) }
        ensures peak { IfOk result (λ q. q.peak ≡ 0) }
        ensures sound { IfOk result (λ q. q.failed ≡ None) }
        ensures unlimited { IfOk result (λ q. q.limited ≡ false) }
        ensures counts { IfOk result (λ q. (q.counts ≡ no_tally) × (q.in_heap ≡ 0)) }
        ensures budget { IfOk result (λ q. fixed_of sizes ≤ sizes.memory) }
        ensures slots { IfOk result (λ q. q.slots ≡ map S.shown slots.items) }
        ensures back { IfErr result (λ refused. SameSums (map S.shown slots.items) (map S.shown refused.0.items)) }
        ensures need { IfErr result (λ refused. NamesNeed sizes refused.1) }
    {
        let _workers = sizes.workers();
        let buffers = match sizes.pool() {
            Ok(buffers) => buffers,
            Err(small) => return Err((slots, OpenFault::TooSmall { need: small.need })),
        };
        let Ok(parts) = Parts::new(alloc, &sizes, buffers) else {
            return Err((slots, OpenFault::Memory));
        };
        let Parts { heaps, store } = parts;
        let mut store = store;
        let mut slots = slots;
        if berth_slots(alloc, &mut slots, &mut store.supply).is_err() {
            return Err((slots, OpenFault::Memory));
        }
        Ok(Queue {
            store,
            heaps,
            count: 0,
            peak: 0,
            failed: None,
            limited: false,
            counts: Counts::none(),
            slots,
        })
    }

    /// Adds a record. It costs one sift into the first heap, and while that has room nothing else is touched
    /// and no `NoFreeBlock` comes; where it is full, the rest of the extract buffer and the sorted heap are
    /// stored as runs first, and levels of runs are merged.
    ///
    /// Each refusal hands the record back. `NoFreeBlock`: the multiset is as it was; the device has fewer blocks
    /// than are enough for the peak, and even for the records that are there now (`blocks_are_used`); and the
    /// peak is above what a heap holds, unless a limit session was begun. `Device`: a call of the block with that number failed, now or before. From then on the queue is
    /// stopped: each later call of it returns that number and changes nothing (`begin_session` and `store_heaps`
    /// count a session all the same, and the latter notes a limit session), while `size`, `resident` and `close`
    /// return what they did.
    ///
    /// A record that is accepted counts, and a store of the first heap, if that was full, whatever is returned.
    pub fn push<H: Host, G: Gate>(&mut self, rt: &H, r: R, gate: &G) -> Result<(), (R, QueueFault)>
    where
        H::Dir: Send,
        ensures added { OnOk result (HasAdded r self.old self.new) }
        ensures easy { self.old.failed ≡ None → self.old.in_first < heap_of self.old.sizes → IsOk result × (self.new ≡ with_one self.old self.new.bag) }
        ensures back { IfErr result (λ refused. refused.0 ≡ r) }
        ensures refused { IfErr result (λ refused. IsRefusal self.old self.new refused.1) }
        ensures latched { (number : ℕ) → self.old.failed ≡ Some number → (result ≡ Err (r, Device number)) × (self.new ≡ self.old) }
        ensures peak { self.old.failed ≡ None → self.new.peak ≡ max self.old.peak (self.old.size + 1) }
        ensures counted { CountsPush self.old self.new result }
        ensures keeps { Keeps self.old self.new }
    {
        if let Some(number) = self.failed {
            return Err((r, QueueFault::Device { number }));
        }
        self.raise_peak();
        match self.make_room(rt, gate) {
            Ok(()) => {
                self.put(r);
                Ok(())
            }
            Err(fault) => Err((r, fault)),
        }
    }

    // Makes room in the first heap for a record.
    fn make_room<H: Host, G: Gate>(&mut self, rt: &H, gate: &G) -> Result<(), QueueFault>
    where
        H::Dir: Send,
        requires sound { self.old.failed ≡ None }
        requires peak { self.old.size < self.old.peak }
        ensures leaves { QueueLeaves self.old self.new result }
        ensures counted { CountsRoom self.old self.new result }
        ensures room { OnOk result (self.new.in_first < heap_of self.new.sizes) }
        ensures easy { self.old.in_first < heap_of self.old.sizes → IsOk result × (self.new ≡ self.old) }
    {
        self.heaps.known();
        if !self.heaps.is_full() {
            return Ok(());
        }
        self.flush(rt, gate)
    }

    // The peak counts a record that is about to come.
    fn raise_peak(&mut self)
        ensures { self.new ≡ record self.old { peak = max self.old.peak (self.old.size + 1) } }
    {
        self.peak = self.peak.max(self.count + 1);
    }

    // Adds a record to the first heap, which has room.
    fn put(&mut self, r: R)
        requires may { MayPut self.old }
        ensures added { IsSameBag self.new.bag (r ∷ self.old.bag) }
        ensures rest { self.new ≡ record self.old { bag = self.new.bag; size = self.old.size + 1; in_heap = self.old.in_heap + 1; in_first = self.old.in_first + 1; counts = accepting 1 self.old.counts } }
    {
        // There is room, so the heap takes it.
        // The first heap has room, so no record comes back.
        let _ = self.heaps.try_push(r);
        self.heaps.known();
        self.count += 1;
        self.counts.accept(1);
    }

    // Stores the rest of the extract buffer and the first heap, which counts.
    fn flush<H: Host, G: Gate>(&mut self, rt: &H, gate: &G) -> Result<(), QueueFault>
    where
        H::Dir: Send,
        requires sound { self.old.failed ≡ None }
        requires above { IsAbove self.old.sizes self.old.peak self.old.limited }
        ensures leaves { QueueLeaves self.old self.new result }
        ensures counted { CountsStore self.old self.new result }
        ensures emptied { OnOk result (self.new.in_first ≡ 0) }
    {
        self.counts.begin_store();
        let answer = self.store.flush_all(rt, &mut self.heaps, gate);
        latch(&mut self.failed, answer);
        answer
    }

    // Makes the extract buffer ready: it is empty only where no run is left.
    fn ready<H: Host, G: Gate>(&mut self, rt: &H, gate: &G) -> Result<(), QueueFault>
    where
        H::Dir: Send,
        ensures leaves { QueueLeaves self.old self.new result }
        ensures counted { CountsAs self.old.counts self.old self.new }
        ensures readied { OnOk result (IsReady self.new) }
        ensures easy { self.old.failed ≡ None → (0 < self.old.in_extract) ⊎ (self.old.size ≡ self.old.in_heap) → IsOk result × (self.new ≡ self.old) }
        ensures crowded { IsErrOf result NoFreeBlock → 8 < self.new.crowd }
        ensures scant { IsErrOf result NoFreeBlock → self.new.free < 8 + self.new.sizes.workers }
    {
        if let Some(number) = self.failed {
            return Err(QueueFault::Device { number });
        }
        let answer = self.store.make_ready(rt, gate);
        latch(&mut self.failed, answer);
        answer
    }

    // The smallest record of a queue whose extract buffer is ready.
    fn least(&self) -> Option<R>
        requires { IsReady self.now }
        ensures { IsLeast R.Ord.cmp self.now result }
    {
        record_laws::<R>();
        first_of_two(self.heaps.min(), self.store.extract.front())
    }

    // Takes the smallest record out of a queue whose extract buffer is ready.
    fn take_least(&mut self) -> Option<R>
        requires { IsReady self.old }
        ensures { TookLeast R.Ord.cmp self.old self.new result }
    {
        record_laws::<R>();
        self.count = self.count.saturating_sub(1);
        take_first(&mut self.heaps, &mut self.store.extract)
    }

    /// The smallest record, left in the queue; none exactly where the queue is empty. It costs one comparison.
    /// Where the extract buffer is empty and there are runs, levels of runs are merged and it is refilled first.
    /// Only then a block is called: where the extract buffer has a record, or no run has one, nothing is done.
    ///
    /// `NoFreeBlock` and `Device` come as from `push`; the former only while a level has more than 8 runs, and fewer
    /// blocks are free than 8 and one for each worker.
    pub fn top<H: Host, G: Gate>(&mut self, rt: &H, gate: &G) -> Result<Option<R>, QueueFault>
    where
        H::Dir: Send,
        ensures answer { IfOk result (λ answer. AllTell self.old.slots → answer ≡ least R.Ord.cmp self.old.bag) }
        ensures none { IfOk result (λ answer. IsNone answer ↔ (self.old.size ≡ 0)) }
        ensures same { OnOk result (SameRecords self.old self.new) }
        ensures easy { self.old.failed ≡ None → (0 < self.old.in_extract) ⊎ (self.old.size ≡ self.old.in_heap) → IsOk result × (self.new ≡ self.old) }
        ensures crowded { IsErrOf result NoFreeBlock → 8 < self.new.crowd }
        ensures scant { IsErrOf result NoFreeBlock → self.new.free < 8 + self.new.sizes.workers }
        ensures refused { IfErr result (IsRefusal self.old self.new) }
        ensures latched { (number : ℕ) → self.old.failed ≡ Some number → (result ≡ Err (Device number)) × (self.new ≡ self.old) }
        ensures counted { CountsAs self.old.counts self.old self.new }
        ensures stays { Stays self.old self.new }
    {
        record_laws::<R>();
        self.ready(rt, gate)?;
        Ok(self.least())
    }

    /// The smallest record, removed; none exactly where the queue is empty. It costs one sift of a heap, or
    /// a step in the extract buffer. Where the extract buffer is empty and there are runs, levels of runs are
    /// merged and it is refilled first. Only then a block is called: where the extract buffer has a record, or
    /// no run has one, the record is taken out and nothing else is done.
    ///
    /// `NoFreeBlock` and `Device` come as from `push`; the former only while a level has more than 8 runs, and fewer
    /// blocks are free than 8 and one for each worker.
    pub fn pop<H: Host, G: Gate>(&mut self, rt: &H, gate: &G) -> Result<Option<R>, QueueFault>
    where
        H::Dir: Send,
        ensures answer { IfOk result (λ answer. AllTell self.old.slots → answer ≡ least R.Ord.cmp self.old.bag) }
        ensures none { IfOk result (λ answer. IsNone answer ↔ (self.old.size ≡ 0)) }
        ensures taken { OnOk result (HasTaken R.Ord.cmp self.old self.new) }
        ensures easy { self.old.failed ≡ None → (0 < self.old.in_extract) ⊎ (self.old.size ≡ self.old.in_heap) → IsOk result × (self.new ≡ record self.old { bag = self.new.bag; size = self.old.size - 1; in_heap = self.new.in_heap; in_first = self.new.in_first; in_extract = self.new.in_extract }) }
        ensures crowded { IsErrOf result NoFreeBlock → 8 < self.new.crowd }
        ensures scant { IsErrOf result NoFreeBlock → self.new.free < 8 + self.new.sizes.workers }
        ensures refused { IfErr result (IsRefusal self.old self.new) }
        ensures latched { (number : ℕ) → self.old.failed ≡ Some number → (result ≡ Err (Device number)) × (self.new ≡ self.old) }
        ensures peak { self.new.peak ≡ self.old.peak }
        ensures counted { CountsAs self.old.counts self.old self.new }
        ensures keeps { Keeps self.old self.new }
    {
        record_laws::<R>();
        self.ready(rt, gate)?;
        Ok(self.take_least())
    }

    /// Takes the smallest records out into a list, at most `k` of them and at most as many as it has room for,
    /// in ascending order, and returns how many. What the list had before is gone. A record of a heap costs a
    /// sift there, and one of the extract buffer, which is refilled from all runs while it is empty and more
    /// is wanted, about a comparison. Where no run has a record, no block is called.
    ///
    /// `NoFreeBlock` and `Device` come as from `push`, the former only while a level has more than 8 runs, and fewer
    /// blocks are free than 8 and one for each worker; the list is empty then.
    pub fn bulk_pop<H: Host, G: Gate>(
        &mut self,
        rt: &H,
        k: u64,
        out: &mut Out<R>,
        gate: &G,
    ) -> Result<u64, QueueFault>
    where
        H::Dir: Send,
        requires room { out.old.room ≡ batch_of self.old.sizes }
        ensures pops { BulkLeaves R.Ord.cmp None (min k (batch_of self.old.sizes)) self.old self.new out.old out.new result }
        ensures answer { IfOk result (λ n. n ≡ length out.new.items) }
    {
        record_laws::<R>();
        let room = u64::from(out.room());
        let most = k.min(room) as u32;
        self.bulk(rt, None, most, out, gate)?;
        Ok(u64::from(out.len()))
    }

    /// Takes the smallest records out that are strictly below `l`, into a list: at most `n` of them and at most
    /// as many as it has room for, in ascending order. What the list had before is gone. It says how it
    /// ended: `All`, if none below `l` is left; `More`, if one is left and `n` were returned; `Round`, if one
    /// is left and the list is full with fewer. The costs are those of `bulk_pop`.
    ///
    /// `NoFreeBlock` and `Device` come as from `push`, the former only while a level has more than 8 runs, and fewer
    /// blocks are free than 8 and one for each worker; the list is empty then.
    pub fn bulk_pop_limit<H: Host, G: Gate>(
        &mut self,
        rt: &H,
        l: R,
        n: u64,
        out: &mut Out<R>,
        gate: &G,
    ) -> Result<LimitEnd, QueueFault>
    where
        H::Dir: Send,
        requires room { out.old.room ≡ batch_of self.old.sizes }
        ensures pops { BulkLeaves R.Ord.cmp (Some l) (min n (batch_of self.old.sizes)) self.old self.new out.old out.new result }
        ensures answer { IfOk result (λ end. AllTell self.old.slots → IsEnd R.Ord.cmp (batch_of self.old.sizes) n l out.new.items self.new.bag end) }
    {
        record_laws::<R>();
        let room = u64::from(out.room());
        let most = n.min(room) as u32;
        self.bulk(rt, Some(l), most, out, gate)?;
        Ok(self.limit_end(l, n, room))
    }

    // Takes the smallest records out into a list, at most so many; with a limit only those below it, and the
    // extract buffer is ready afterwards.
    fn bulk<H: Host, G: Gate>(
        &mut self,
        rt: &H,
        limit: Option<R>,
        most: u32,
        out: &mut Out<R>,
        gate: &G,
    ) -> Result<(), QueueFault>
    where
        H::Dir: Send,
        requires most { most ≤ out.old.room }
        ensures { BulkLeaves R.Ord.cmp limit most self.old self.new out.old out.new result }
    {
        record_laws::<R>();
        out.clear();
        if let Some(number) = self.failed {
            return Err(QueueFault::Device { number });
        }
        let wanted = Wanted { limit, most };
        let answer = self.store.take_out(rt, &mut self.heaps, &wanted, out, gate);
        empty_on_error(answer, out);
        self.count = self.count.saturating_sub(u64::from(out.len()));
        latch(&mut self.failed, answer);
        answer
    }

    // Why a bulk pop ended of so many records below a limit, with so much room, by the smallest record that is
    // left; the extract buffer is ready.
    fn limit_end(&self, l: R, n: u64, room: u64) -> LimitEnd
        requires ready { IsReady self.now }
        ensures { AllTell self.now.slots → EndsBy R.Ord.cmp room n l self.now.bag result }
    {
        record_laws::<R>();
        let Some(_below) = keep_below(self.least(), Some(l)) else {
            return LimitEnd::All;
        };
        if n <= room {
            return LimitEnd::More;
        }
        LimitEnd::Round
    }

    /// Merges levels of runs in blocks until none of the 8 levels has more than 8. A session ends with it:
    /// the runs that its passes stored came without one.
    ///
    /// `NoFreeBlock` and `Device` come as from `push`; the former only while a level has more than 8 still, and fewer
    /// blocks are free than 8 and one for each worker.
    pub fn settle<H: Host, G: Gate>(&mut self, rt: &H, gate: &G) -> Result<(), QueueFault>
    where
        H::Dir: Send,
        ensures same { OnOk result (SameRecords self.old self.new) }
        ensures settled { OnOk result (self.new.runs ≤ 64) }
        ensures crowded { IsErrOf result NoFreeBlock → 8 < self.new.crowd }
        ensures scant { IsErrOf result NoFreeBlock → self.new.free < 8 + self.new.sizes.workers }
        ensures refused { IfErr result (IsRefusal self.old self.new) }
        ensures latched { (number : ℕ) → self.old.failed ≡ Some number → (result ≡ Err (Device number)) × (self.new ≡ self.old) }
        ensures counted { CountsAs self.old.counts self.old self.new }
        ensures stays { Stays self.old self.new }
    {
        if let Some(number) = self.failed {
            return Err(QueueFault::Device { number });
        }
        let answer = self.store.settle_some(rt, gate);
        latch(&mut self.failed, answer);
        answer
    }

    /// Makes the queue ready for a session: the rest of the extract buffer is stored as a run, and levels of
    /// runs are merged before and after. The heaps stay as they are. If `merges`, and fewer than half of the
    /// pool's buffers are idle then, all runs in buffers are merged into one run in blocks, and levels of runs
    /// again, so that the passes have buffers: half of the pool is idle afterwards. A session more counts,
    /// whatever is returned.
    ///
    /// `NoFreeBlock` and `Device` come as from `push`.
    pub fn begin_session<H: Host, G: Gate>(
        &mut self,
        rt: &H,
        merges: bool,
        gate: &G,
    ) -> Result<(), QueueFault>
    where
        H::Dir: Send,
        ensures same { OnOk result (SameRecords self.old self.new) }
        ensures emptied { OnOk result (self.new.in_extract ≡ 0) }
        ensures heaps { self.new.in_heap ≡ self.old.in_heap }
        ensures first { self.new.in_first ≡ self.old.in_first }
        ensures settled { OnOk result (self.new.runs ≤ 64) }
        ensures merged { merges ≡ true → OnOk result (pool_of self.new.sizes ≤ 2 * self.new.idle) }
        ensures refused { IfErr result (IsRefusal self.old self.new) }
        ensures latched { (number : ℕ) → self.old.failed ≡ Some number → (result ≡ Err (Device number)) × (self.new ≡ session_begun self.old) }
        ensures counted { CountsAs (beginning self.old.counts) self.old self.new }
        ensures stays { Stays self.old self.new }
    {
        self.counts.begin_session();
        if let Some(number) = self.failed {
            return Err(QueueFault::Device { number });
        }
        let answer = self.store.store_for_session(rt, merges, gate);
        latch(&mut self.failed, answer);
        answer
    }

    /// Makes the queue ready for a limit session: it does what `begin_session` does, and then stores each heap
    /// that is not empty as a run of its own, with levels of runs merged after each. The queue notes that a
    /// limit session was begun, and counts a session more, whatever is returned.
    ///
    /// It costs a sort and a store of each heap. `Device` comes as from `push`, `NoFreeBlock` at any peak.
    pub fn store_heaps<H: Host, G: Gate>(&mut self, rt: &H, gate: &G) -> Result<(), QueueFault>
    where
        H::Dir: Send,
        ensures same { OnOk result (SameRecords self.old self.new) }
        ensures emptied { OnOk result (self.new.in_extract ≡ 0) }
        ensures heaps { OnOk result (self.new.in_heap ≡ 0) }
        ensures settled { OnOk result (self.new.runs ≤ 64) }
        ensures refused { IfErr result (IsRefusal self.old self.new) }
        ensures latched { (number : ℕ) → self.old.failed ≡ Some number → (result ≡ Err (Device number)) × (self.new ≡ limit_begun self.old) }
        ensures counted { CountsAs (beginning self.old.counts) self.old self.new }
        ensures stays { Stays (record self.old { limited = true }) self.new }
    {
        self.limited = true;
        self.counts.begin_session();
        if let Some(number) = self.failed {
            return Err(QueueFault::Device { number });
        }
        let answer = self.store.store_all(rt, &mut self.heaps, gate);
        latch(&mut self.failed, answer);
        answer
    }

    /// The parts of the queue, for a session. Together they are what the queue was.
    pub fn into_parts(self) -> QueueParts<S, R>
        ensures whole { IsWhole S.shown R.Ord.cmp R.record_of R.WIDTH result }
        ensures shows { holding_of S.shown R.record_of R.WIDTH result ≡ self }
    {
        let Queue {
            store,
            heaps,
            count,
            peak,
            failed,
            limited,
            counts,
            slots,
        } = self;
        let Store {
            sizes,
            body,
            supply,
            extract,
            sources,
        } = store;
        QueueParts {
            sizes,
            heaps,
            body,
            supply,
            extract,
            sources,
            count,
            peak,
            failed,
            limited,
            counts,
            slots,
        }
    }

    /// The queue of these parts.
    pub fn from_parts(parts: QueueParts<S, R>) -> Queue<S, R>
        requires { IsWhole S.shown R.Ord.cmp R.record_of R.WIDTH parts }
        ensures { result ≡ holding_of S.shown R.record_of R.WIDTH parts }
    {
        let QueueParts {
            sizes,
            heaps,
            body,
            supply,
            extract,
            sources,
            count,
            peak,
            failed,
            limited,
            counts,
            slots,
        } = parts;
        let store = Store {
            sizes,
            body,
            supply,
            extract,
            sources,
        };
        Queue {
            store,
            heaps,
            count,
            peak,
            failed,
            limited,
            counts,
            slots,
        }
    }

    /// How many records the queue has.
    #[inline]
    pub fn size(&self) -> u64
        ensures { result ≡ self.now.size }
    {
        self.count
    }

    /// How many records count against the budget now: those of the heaps and the extract buffer, the first of
    /// each block in use, a dealt batch and one that is given out, both counted as full, and a block for
    /// each buffer that exists. It never passes the budget.
    pub fn resident(&self) -> u64
        ensures sum { result ≡ resident_of self.now }
        ensures budget { result ≤ self.now.sizes.memory }
    {
        let Ok(pool) = self.store.sizes.pool() else {
            return 0
        };
        let block = u64::from(self.store.sizes.block());
        let lanes = u64::from(self.store.sizes.lane_buffers());
        let buffers = (lanes + u64::from(pool)) * block;
        let used = u64::from(self.store.sizes.blocks()) - u64::from(self.store.supply.free_slots());
        let batches = 2 * u64::from(self.store.sizes.batch());
        self.heaps.len() + self.store.extract.len() as u64 + used + batches + buffers
    }

    /// What holds of every queue, as clauses for the proof of whoever calls it. It does nothing.
    #[inline]
    pub fn known(&self)
        // Unless a block failed, the multiset has as many records as are counted, where slots tell.
        ensures counted { self.now.failed ≡ None → AllTell self.now.slots → length self.now.bag ≡ self.now.size }
        ensures peak { self.now.size ≤ self.now.peak }
        ensures heap { self.now.in_first ≤ heap_of self.now.sizes }
        ensures heaps { self.now.in_heap ≤ heaps_of self.now.sizes }

        // Records beyond the budget are in blocks, each of which was written.
        ensures written { self.now.failed ≡ None → self.now.size ≤ self.now.sizes.memory + self.now.sizes.block * all_writes self.now.slots }

        // Its numbers bound what was written, while none of them stands still and they allow few enough runs. No block
        // was read more often than it was written.
        ensures transfers { IsCounting self.now.counts → runs_of self.now.sizes.workers self.now.counts < too_heavy → self.now.sizes.block * all_writes self.now.slots ≤ bound_of self.now.sizes.workers self.now.sizes.block self.now.counts }
        ensures read { All IsSpent self.now.slots }

        // Each block is free or in use. Unless one failed, a block in use is full of records of a run, but for one of
        // each run and but for 65 in all. So few are free only if many records are there (`blocks_are_used`).
        ensures slots { length self.now.slots ≡ self.now.sizes.blocks }
        ensures free { self.now.free ≤ self.now.sizes.blocks }
        ensures used { self.now.failed ≡ None → UsesBlocks self.now }

        ensures failed { (number : ℕ) → self.now.failed ≡ Some number → HasFailed number self.now.slots }
        ensures range { AreInRange self.now.sizes }
        ensures budget { fixed_of self.now.sizes ≤ self.now.sizes.memory }
    {
        self.heaps.known();
    }

    /// Ends the queue, and gives back every slot that was handed in, each once and as it is: no call of one is
    /// made.
    pub fn close(self) -> Vec<S>
        ensures { SameSums self.slots (map S.shown result.items) }
    {
        let Queue { store, slots, .. } = self;
        let Store { body, supply, .. } = store;
        give_back(body, supply, slots)
    }
}
