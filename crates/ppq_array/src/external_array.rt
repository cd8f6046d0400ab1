//! A run in blocks.
ghost use Rattle.std.specs.Prelude.{◌≡◌, ◌+◌, ◌-◌, ◌*◌, ◌^◌, ◌<◌, ◌≤◌, ◌↔◌, not, count_by, [], ◌∷◌, ◌++◌, length, drop, slice_get, Some, IsNone, IfNone, IfSome, All};
ghost use Rattle.ppq_block.specs.ppq_record.Bag.{first_of};
ghost use Rattle.ppq_block.specs.ppq_record.Order.{Ascends, is_before};
ghost use Rattle.ppq_outside.specs.Shown.{Tells};
ghost use Rattle.ppq_array.specs.Run.{run_of, items_of, buffers_of, IsRun};
ghost use Rattle.ppq_array.specs.External.{external, size_of, next_of, records_in, block_items, Accepts, FirstTells, IsLabelled, counts};

use crate::berth::Berth;
use crate::berth_list::BerthList;
use crate::internal_array::InternalArray;
use ppq_block::{BlockBuf, Record, record_laws};
use ppq_outside::{Host, Slot};
use std::marker::Model;
use std::snapshot::Snapshot;

// How many blocks of a run its device is told of ahead. Two are as good as eight: while one is merged the next one
// comes.
const AHEAD: u32 = 2;

/// A run in blocks, seen as one list of records: those that are loaded into buffers, those of the blocks
/// that were lifted to be read, and those of the blocks that are stored, each with its slot, its first
/// record and its count. None of its calls allocates.
///
/// Its blocks are stored one at a time at the end, and lifted, read and accepted at the front, in order.
#[derive(Drop)]
pub struct ExternalArray<S: Slot, R: Record> {
    // how often its records were merged
    level: u32,
    // the blocks that are loaded
    loaded: InternalArray<R>,
    // the blocks that are stored
    stored: BerthList<S, R>,
    // those that were stored when the first of the blocks was lifted that are out now
    was: Snapshot<BerthList<S, R>>,
    // how many of those were lifted and accepted since
    accepted: u32,
    // how many blocks are lifted and not accepted
    lifted: u32,
    // how many records there are
    len: u64,
    // how many of the first stored blocks their device reads by itself
    coming: u32,
}

impl<S: Slot, R: Record> Model for ExternalArray<S, R> {
    ghost use Rattle.std.specs.Prelude.{take, drop};
    ghost use Rattle.ppq_array.specs.External.{External, external};
    ghost use Rattle.ppq_array.specs.ExternalParts.{IsExternal};

    ghost Value = { External S R };

    ghost view = { λ a. external a.level a.loaded (take a.lifted (drop a.accepted a.was.value)) a.stored };

    ghost invariant = { λ a. IsExternal R.record_of R.WIDTH S.shown a.loaded a.was.value a.accepted a.lifted a.stored a.len };
}

impl<S: Slot, R: Record> ExternalArray<S, R> {
    /// A run of no records at a level. It does not allocate.
    pub fn empty(level: u32) -> Self
        ensures { result ≡ external level (run_of [] 0 []) [] [] }
    {
        let stored = BerthList::empty();
        let was = Snapshot::of(&stored);
        ExternalArray {
            level,
            loaded: InternalArray::empty(),
            stored,
            was,
            accepted: 0,
            lifted: 0,
            len: 0,
            coming: 0,
        }
    }

    /// How many records there are, loaded or not.
    #[inline]
    pub fn len(&self) -> u64
        ensures { result ≡ size_of self.now }
    {
        self.len
    }

    /// How often its records were merged.
    #[inline]
    pub fn level(&self) -> u32
        ensures { result ≡ self.now.level }
    {
        self.level
    }

    /// How many blocks are stored.
    #[inline]
    pub fn blocks(&self) -> u32
        ensures { result ≡ length self.now.stored }
    {
        self.stored.len()
    }

    /// How many buffers its loaded blocks have, those that are spent counted.
    #[inline]
    pub fn buffers(&self) -> u32
        ensures { result ≡ length (buffers_of self.now.loaded) }
    {
        self.loaded.buffers()
    }

    /// The first record of the first block that is not loaded. None is returned if and only if all are
    /// loaded.
    #[inline]
    pub fn next_minimum(&self) -> Option<R>
        requires { self.now.lifted ≡ [] }
        ensures minimum { result ≡ next_of self.now.stored }
        ensures none { IsNone result ↔ (self.now.stored ≡ []) }
        ensures labelled { All (IsLabelled R.record_of R.WIDTH S.shown) self.now.stored }
    {
        self.next_to_lift()
    }

    /// The first record of the first block that is neither loaded nor lifted. None is returned if and
    /// only if there is no such block.
    #[inline]
    pub fn next_to_lift(&self) -> Option<R>
        ensures minimum { result ≡ next_of self.now.stored }
        ensures none { IsNone result ↔ (self.now.stored ≡ []) }
        ensures labelled { All (IsLabelled R.record_of R.WIDTH S.shown) self.now.stored }
    {
        match self.stored.first() {
            Some(block) => block.minimum,
            None => None,
        }
    }

    /// Tells the device that the first two of the stored blocks are read soon, of each of them once. Returns
    /// whether the device reads the first one by itself, or there is none. It is no block transfer.
    pub fn announce<H: Host>(&mut self, rt: &H) -> bool
        ensures same { self.new ≡ self.old }
    {
        for _block in self.coming..AHEAD {
            if !self.announce_next(rt) {
                break;
            }
        }
        self.coming > 0 || self.stored.is_empty()
    }

    // Tells the device of the first stored block that it does not read by itself. Returns whether it does from now
    // on.
    fn announce_next<H: Host>(&mut self, rt: &H) -> bool
        ensures same { self.new ≡ self.old }
    {
        let Some(block) = self.stored.near(self.coming) else {
            return false;
        };
        let comes = block.slot.expect(rt);
        if comes {
            self.coming = self.coming.saturating_add(1);
        }
        comes
    }

    /// How many records are loaded.
    #[inline]
    pub fn loaded(&self) -> u64
        ensures loaded { result ≡ length (items_of self.now.loaded) }
        ensures run { IsRun self.now.loaded }
    {
        self.loaded.len()
    }

    /// The loaded record at a place.
    #[inline]
    pub fn loaded_at(&self, i: u64) -> R
        requires { i < length (items_of self.now.loaded) }
        ensures record { slice_get (items_of self.now.loaded) i ≡ Some result }
        ensures value { R.is_value result }
    {
        self.loaded.at(i)
    }

    /// How many loaded records are not above this one, where they ascend; else some number of them. It
    /// looks at about the binary logarithm of them.
    pub fn loaded_at_most(&self, u: &R) -> u64
        ensures within { result ≤ length (items_of self.now.loaded) }
        ensures count { Ascends R.Ord.cmp (items_of self.now.loaded) → result ≡ count_by (λ x. not (is_before R.Ord.cmp u.now x)) (items_of self.now.loaded) }
    {
        record_laws::<R>();
        let loaded = &self.loaded;
        let mut low = 0;
        let mut high = loaded.len();
        while low < high {
            let middle = low + (high - low) / 2;
            if u.cmp(&loaded.at(middle)).is_lt() {
                high = middle;
            } else {
                low = middle + 1;
            }
        }
        low
    }

    /// Takes the first `n` loaded records away.
    pub fn consume(&mut self, n: u64)
        requires { n ≤ length (items_of self.old.loaded) }
        ensures items { items_of self.new.loaded ≡ drop n (items_of self.old.loaded) }
        ensures buffers { buffers_of self.new.loaded ≡ buffers_of self.old.loaded }
        ensures run { IsRun self.new.loaded }
        ensures rest { self.new ≡ external self.old.level self.new.loaded self.old.lifted self.old.stored }
    {
        self.loaded.consume(n);
        self.len -= n;
    }

    /// Gives the first buffer all of whose records were consumed. None is returned if and only if there
    /// is none.
    pub fn take_spent(&mut self) -> Option<BlockBuf<R>>
        ensures none { IsNone result ↔ (self.old.loaded.spent ≡ []) }
        ensures spent { IfSome result (λ buf. self.old.loaded.spent ≡ buf ∷ self.new.loaded.spent) }
        ensures last { IfNone result (self.new.loaded.spent ≡ []) }
        ensures rest { self.new ≡ external self.old.level (run_of self.old.loaded.live self.old.loaded.taken self.new.loaded.spent) self.old.lifted self.old.stored }
    {
        self.loaded.take_spent()
    }

    /// Adds a stored block after the others: its slot, its first record and its count of records.
    pub fn append(&mut self, berth: Berth<S, R>, minimum: R, count: u32)
        requires none_lifted { self.old.lifted ≡ [] }
        requires few { size_of self.old + count < 2 ^ 64 }
        requires room { length self.old.stored < 2 ^ 32 - 1 }
        requires labelled { IsLabelled R.record_of R.WIDTH S.shown record { slot = berth.slot; minimum = Some minimum; count = count } }
        ensures { self.new ≡ external self.old.level self.old.loaded [] (self.old.stored ++ record { slot = berth.slot; minimum = Some minimum; count = count } ∷ []) }
    {
        let mut berth = berth;
        berth.label(minimum, count);
        self.stored.push_back(berth);
        self.len += u64::from(count);
    }

    /// The first stored block leaves to be read: its slot, and how many records it has.
    pub fn lift(&mut self) -> (Berth<S, R>, u32)
        requires { 0 < length self.old.stored }
        ensures block { self.old.stored ≡ result.0 ∷ self.new.stored }
        ensures count { result.1 ≡ result.0.count }
        ensures labelled { IsLabelled R.record_of R.WIDTH S.shown result.0 }
        ensures rest { self.new ≡ external self.old.level self.old.loaded (self.old.lifted ++ result.0 ∷ []) self.new.stored }
    {
        if self.lifted == 0 {
            self.was = Snapshot::of(&self.stored);
            self.accepted = 0;
        }
        let berth = self.stored.pop_front().unwrap();
        self.lifted += 1;
        self.coming = self.coming.saturating_sub(1);
        let count = berth.count();
        (berth, count)
    }

    /// The block that was lifted first and not accepted yet is loaded, with this buffer.
    pub fn accept_block(&mut self, buf: BlockBuf<R>)
        requires first { Accepts R.record_of R.WIDTH S.shown self.old.lifted buf }
        requires few { length (buffers_of self.old.loaded) < 2 ^ 32 - 1 }
        ensures loaded { self.new.loaded ≡ run_of (self.old.loaded.live ++ buf ∷ []) self.old.loaded.taken self.old.loaded.spent }
        ensures items { items_of self.new.loaded ≡ items_of self.old.loaded ++ buf.items }
        ensures same { FirstTells R.record_of R.WIDTH S.shown self.old.lifted → records_in R.record_of R.WIDTH S.shown self.new ≡ records_in R.record_of R.WIDTH S.shown self.old }
        ensures rest { self.new ≡ external self.old.level self.new.loaded (drop 1 self.old.lifted) self.old.stored }
    {
        self.loaded.add(buf);
        self.lifted -= 1;
        self.accepted += 1;
    }

    /// The slot of the last stored block leaves, and the block's records are lost to the run. None is
    /// returned if and only if no block is stored.
    pub fn give_up(&mut self) -> Option<Berth<S, R>>
        ensures none { IsNone result ↔ (self.old.stored ≡ []) }
        ensures last { IfSome result (λ berth. self.old.stored ≡ self.new.stored ++ berth ∷ []) }
        ensures end { IfNone result (self.new.stored ≡ []) }
        ensures rest { self.new ≡ external self.old.level self.old.loaded self.old.lifted self.new.stored }
    {
        match self.stored.pop_back() {
            None => None,
            Some(berth) => {
                self.len -= u64::from(berth.count());
                Some(berth)
            }
        }
    }
}
