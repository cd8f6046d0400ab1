//! A pass of a session.
ghost use Rattle.std.specs.Prelude.{◌≡◌, ◌<◌, ◌≤◌, ◌+◌, ◌*◌, ◌/◌, ◌↔◌, ◌∷◌, [], ℕ, length, All, Some, None, Err, IsOk, IsErr, IfErr, OnOk, OnErr, vec_capacity};
ghost use Rattle.ppq_pool.specs.ppq_record.Bag.{IsSameBag};
ghost use Rattle.ppq_extract.specs.ppq_budget.Sizes.{heap_of, pool_of};
ghost use Rattle.ppq_extract.specs.ppq_array.Owner.{HasSlot};
ghost use Rattle.ppq_spill.specs.Body.{IsNewBody};
ghost use Rattle.ppq_pool.specs.Seats.{count_of};
ghost use Rattle.ppq_pass.specs.Passed.{IsOf, PassTells, KeptSlots, PutAfterStore, PushKeeps, CountsPassPush, with_one, IsRefusedPush, IsKnown, holding_of, new_holding};
ghost use Rattle.ppq_pass.specs.PassState.{IsPassed, IsSoundPass, IsPassCounted};
ghost use Rattle.ppq_extract.specs.ppq_array.declared.store_fault.StoreFault.TheVariants.{Device};

use crate::store::store_run;
use crate::{Full, PassHeld, PassParts, PoolBuf, Shared};
use ppq_extract::{Berth, BerthList, Host, Sizes, Slot, StoreFault};
use ppq_heap::InsertionHeap;
use ppq_pool::{PoolSeat, Record, record_laws};
use ppq_row::RowSeat;
use ppq_spill::{PassBody, latch};
use std::marker::Model;

/// A pass of a session: what one worker adds records to, beside the others and with no lock.
///
/// A record is appended to the heap, until that holds `H` records. Then the heap is sorted and stored as a
/// run, in buffers of the shared pool if there are enough, and else together with all runs in buffers
/// in slots of the stash and the shared row. No call takes memory.
///
/// Contracts see its key, which no call changes; the multiset of its records, as far as slots tell, and how
/// many they are; all slots and how many buffers it holds; how many steps it took at the row and the
/// pool, which it shares with others; how many pushes were accepted, and whether one was refused for
/// want of blocks; the slot that failed; and how many stores of its full heap it began.
#[derive(Drop)]
pub struct Pass<S: Slot, R: Record> {
    /// The five numbers from which all sizes follow.
    sizes: Sizes,
    /// The latest records.
    heap: InsertionHeap<R>,
    /// The runs, and two idle buffers.
    body: PassBody<S, R>,
    /// Seats, stash and numbers. They are away within a call alone, while a supply is made of them.
    parts: Option<PassParts<S, R>>,
    /// How many records the heap had in the beginning.
    begun: u64,
    /// How many pushes answered Ok.
    accepted: u64,
    /// Whether a push answered `NoFreeBlock`.
    refused: bool,
    /// The slot that failed first; from then on every push says so.
    failed: Option<u32>,
    /// How many stores of the full heap were begun. It saturates at 2^64 - 1.
    stores: u64,
}

impl<S: Slot, R: Record> Model for Pass<S, R> {
    ghost use Rattle.ppq_pass.specs.Passed.{PassHolding, shown_holding};
    ghost use Rattle.ppq_pass.specs.PassState.{IsPassing};

    ghost Value = { PassHolding S R };

    ghost view = { λ p. shown_holding S.shown R.record_of R.WIDTH p.sizes p.heap p.body p.parts p.begun p.accepted p.refused p.failed p.stores };

    ghost invariant = { λ p. IsPassing S.shown R.Ord.cmp R.record_of R.WIDTH p.sizes p.heap p.body p.parts p.begun p.accepted p.refused p.failed p.stores };
}

impl<S: Slot, R: Record> Pass<S, R> {
    /// A pass with the records of a heap, over new seats of the row and the pool of its session. It takes
    /// no memory.
    ///
    /// The heap has room for `H` records. The body is new, with room for one run more than `N / h` in
    /// buffers and than `D / h` in blocks, for the `N` buffers of the budget, the `D` slots of the device
    /// and the `h` blocks of a heap: each run has `h` buffers or blocks at least. All slots of the row
    /// have the bytes of a block, and all buffers of the pool are of the block size. `numbers` is an empty
    /// list that has room for the numbers of all buffers.
    pub fn new(
        sizes: Sizes,
        heap: InsertionHeap<R>,
        body: PassBody<S, R>,
        row_seat: RowSeat<Berth<S, R>>,
        pool_seat: PoolSeat<PoolBuf<R>>,
        numbers: Vec<u32>,
    ) -> Self
        requires heap { heap.cap ≡ heap_of sizes }
        requires body { IsNewBody sizes.block (pool_of sizes / sizes.heap + 1) (sizes.blocks / sizes.heap + 1) body }
        requires undrawn { row_seat.hand.places ≡ [] }
        requires slots { length row_seat.hand.items ≤ sizes.blocks }
        requires bytes { All (HasSlot S.shown (sizes.block * R.WIDTH)) row_seat.hand.items }
        requires untaken { pool_seat.hand.numbers ≡ [] }
        requires shape { 0 < count_of pool_seat.pool → pool_seat.hand.shape ≡ sizes.block }
        requires buffers { count_of pool_seat.pool ≤ pool_of sizes }
        requires numbers { numbers.items ≡ [] }
        requires room { count_of pool_seat.pool ≤ vec_capacity numbers }
        ensures { result ≡ new_holding sizes heap.items row_seat pool_seat }
    {
        let begun = u64::from(heap.len());
        let parts = PassParts {
            row_seat,
            stash: BerthList::empty(),
            pool_seat,
            numbers,
            block: sizes.block(),
            dry: 0,
            scant: 0,
            room_when_scant: 0,
        };
        Pass {
            sizes,
            heap,
            body,
            parts: Some(parts),
            begun,
            accepted: 0,
            refused: false,
            failed: None,
            stores: 0,
        }
    }

    /// Adds a record, if the heap has room. `Full` comes exactly where the heap holds `H` records, and
    /// nothing has changed then. It makes no comparison, and touches nothing that is shared.
    #[inline]
    pub fn try_push(&mut self, r: R) -> Result<(), Full>
        ensures full { IsErr result ↔ (self.old.in_heap ≡ heap_of self.old.key.sizes) }
        ensures added { OnOk result (IsSameBag self.new.bag (r ∷ self.old.bag)) }
        ensures one { OnOk result (self.new ≡ with_one self.old self.new.bag) }
        ensures same { OnErr result (self.new ≡ self.old) }
    {
        match self.heap.try_append(r) {
            Ok(()) => {
                self.accepted += 1;
                Ok(())
            }
            Err(_) => Err(Full),
        }
    }
}

impl<S: Slot + Send, R: Record + Send> Pass<S, R> {
    /// Adds a record. Where the heap has room it makes no comparison, and touches nothing that is shared.
    /// Where the heap is full, it is sorted first and stored as a run: `h` takes of buffers, or else a draw
    /// and a write for each block of the heap and of all runs in buffers. The heap has one record then.
    ///
    /// Each refusal hands the record back. `NoFreeBlock`: the multiset is as it was; the row is drawn to its
    /// end, and the slots that the pass drew, which stay with it, are too few. A later push tries again.
    /// `Device`: a call of the slot with that number failed, now or before. From then on each push returns it
    /// and changes nothing, the heap is full, so that `try_push` returns `Full`, and `accepted` and `refused`
    /// return what they did. Whatever it returns, the pass holds the slots that it held and those that it
    /// drew, each once.
    ///
    /// A push that finds the heap full counts one store more, whatever comes of it, unless a call of a slot
    /// failed before. The records of all stores that a pass counted are among those that it accepted and
    /// those that it had in the beginning.
    pub fn push<H: Host>(
        &mut self,
        rt: &H,
        shared: &Shared<S, R>,
        r: R,
    ) -> Result<(), (R, StoreFault)>
    where
        H::Dir: Send,
        requires { IsOf shared.now self.old }
        ensures added { OnOk result (PassTells S.shown self.old → IsSameBag self.new.bag (r ∷ self.old.bag)) }
        ensures size { OnOk result (self.new.size ≡ self.old.size + 1) }
        ensures accepted { OnOk result (self.new.accepted ≡ self.old.accepted + 1) }
        ensures same { OnOk result (self.new.refused ≡ self.old.refused) }
        ensures sound { OnOk result (self.new.failed ≡ None) }
        ensures stored { OnOk result (self.old.in_heap ≡ heap_of self.old.key.sizes → self.new.in_heap ≡ 1) }
        ensures easy { self.old.failed ≡ None → self.old.in_heap < heap_of self.old.key.sizes → IsOk result × (self.new ≡ with_one self.old self.new.bag) }
        ensures back { IfErr result (λ e. e.0 ≡ r) }
        ensures refused { IfErr result (λ e. IsRefusedPush self.old self.new e.1) }
        ensures latched { (number : ℕ) → self.old.failed ≡ Some number → (result ≡ Err (r, Device number)) × (self.new ≡ self.old) }
        ensures tells { PassTells S.shown self.old → PassTells S.shown self.new }
        ensures kept { KeptSlots self.old self.new }
        ensures key { self.new.key ≡ self.old.key }
        ensures counted { CountsPassPush self.old self.new result }
    {
        if let Some(number) = self.failed {
            return Err((r, StoreFault::Device { number }));
        }
        match self.try_push(r) {
            Ok(()) => return Ok(()),
            Err(Full) => {}
        }
        match self.store_and_put(rt, shared, r) {
            Ok(()) => Ok(()),
            Err(fault) => Err((r, fault)),
        }
    }

    // Stores a full heap as a run, and puts a record into the emptied heap. The store is counted before it is
    // tried.
    fn store_and_put<H: Host>(
        &mut self,
        rt: &H,
        shared: &Shared<S, R>,
        r: R,
    ) -> Result<(), StoreFault>
    where
        H::Dir: Send,
        requires of { IsOf shared.now self.old }
        requires sound { self.old.failed ≡ None }
        requires full { self.old.in_heap ≡ heap_of self.old.key.sizes }
        ensures put { OnOk result (PutAfterStore S.shown r self.old self.new) }
        ensures refused { IfErr result (IsRefusedPush self.old self.new) }
        ensures stays { PushKeeps S.shown self.old self.new }
    {
        record_laws::<R>();
        let Some(parts) = self.parts.take() else {
            unreachable!()
        };
        self.stores = self.stores.saturating_add(1);
        self.heap.sort_in_place();
        let (parts, answer) = store_run(rt, shared, &mut self.body, parts, self.heap.as_slice());
        self.parts = Some(parts);
        match answer {
            Ok(()) => {
                self.heap.clear();
                // The heap was emptied, so no record comes back.
                let _ = self.heap.try_append(r);
                self.accepted += 1;
                Ok(())
            }
            Err(StoreFault::NoFreeBlock) => {
                self.refused = true;
                Err(StoreFault::NoFreeBlock)
            }
            Err(StoreFault::Device { number }) => {
                latch(&mut self.failed, answer);
                Err(StoreFault::Device { number })
            }
        }
    }
}

impl<S: Slot, R: Record> Pass<S, R> {
    /// How many of its pushes answered Ok.
    #[inline]
    pub fn accepted(&self) -> u64
        ensures { result ≡ self.now.accepted }
    {
        self.accepted
    }

    /// Whether a push of it answered `NoFreeBlock`.
    #[inline]
    pub fn refused(&self) -> bool
        ensures { result ≡ self.now.refused }
    {
        self.refused
    }

    /// The number of the slot a call of which failed first.
    #[inline]
    pub fn failed(&self) -> Option<u32>
        ensures { result ≡ self.now.failed }
    {
        self.failed
    }

    /// What always holds of a pass, for proofs.
    pub fn known(&self)
        ensures { IsKnown self.now }
    {
        let _ = &self.sizes;
    }

    /// All that the pass has, for the end of its session. What it counted pays for what was written of its
    /// slots since it drew them, and no more blocks of them were read than written, while their counts are
    /// exact.
    pub fn into_parts(self) -> PassHeld<S, R>
        ensures shows { holding_of S.shown R.record_of R.WIDTH self.key.sizes result.heap result.body result.parts result.begun result.accepted result.refused result.failed result.stores ≡ self }
        ensures always { IsPassed S.shown R.WIDTH self.key.sizes result.heap result.body result.parts result.refused result.failed }
        ensures sound { self.failed ≡ None → IsSoundPass S.shown R.Ord.cmp R.record_of R.WIDTH self.key.sizes result.heap result.body result.parts result.begun result.accepted result.refused }
        ensures counted { IsPassCounted S.shown self.key.sizes result.heap result.body result.parts result.begun result.accepted result.stores result.failed }
    {
        let Pass {
            sizes: _,
            heap,
            body,
            parts,
            begun,
            accepted,
            refused,
            failed,
            stores,
        } = self;
        let Some(parts) = parts else { unreachable!() };
        PassHeld {
            heap,
            body,
            parts,
            begun,
            accepted,
            refused,
            failed,
            stores,
        }
    }
}
