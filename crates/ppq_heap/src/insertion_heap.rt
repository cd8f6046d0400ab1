//! The insertion heap.
ghost use Rattle.std.specs.Prelude.{◌≡◌, ◌≤◌, ◌↔◌, ◌∷◌, [], List, drop, length, take, IfErr, IfOk, IfSome, IsErr, IsNone, IsTrue, OnErr, OnOk};
ghost use Rattle.ppq_tree.specs.ppq_record.Order.{Ascends, is_before};
ghost use Rattle.ppq_tree.specs.ppq_record.Bag.{IsSameBag, ascending, least};
ghost use Rattle.ppq_heap.specs.Heap.{IsMinHeap};

use crate::sift::{replace_root, rise_all};
use ppq_tree::{Memory, Record, record_laws, sort};
use std::alloc::Global;
use std::marker::Model;

/// A multiset of at most `cap` records, the smallest of which is at hand.
///
/// Contracts see the records in the order in which they lie, `items`, and `cap`. The order is that
/// of a binary heap: no record is after its children. Records that were appended lie behind the heap, as
/// they came, until a push, a pop or a sort puts them into their places.
#[derive(Drop)]
pub struct InsertionHeap<R: Record> {
    // The records: a binary heap, and behind it those that were appended since it was made.
    records: Vec<R>,
    // How many of the first records are that heap.
    heaped: u32,
    // How many records there may be; the vector has room for so many from the beginning.
    cap: u32,
}

impl<R: Record> Model for InsertionHeap<R> {
    ghost use Rattle.std.specs.Prelude.{◌≤◌, ◌<◌, ◌^◌, take, vec_len, vec_capacity};
    ghost use Rattle.ppq_tree.specs.ppq_record.Order.{is_before};
    ghost use Rattle.ppq_heap.specs.Heap.{Contents, IsMinHeap};

    ghost Value = { Contents R };

    ghost view = { λ h. record { items = h.records.items; cap = h.cap } };

    ghost invariant = { λ h. (vec_len h.records ≤ h.cap) × (h.cap ≤ vec_capacity h.records) × (h.cap < 2 ^ 32) × (h.heaped ≤ vec_len h.records) × IsMinHeap (is_before R.Ord.cmp) (take h.heaped h.records.items) };
}

impl<R: Record> InsertionHeap<R> {
    /// An empty heap with room for `cap` records, the only call that takes memory.
    pub fn new(alloc: Global, cap: u32) -> Result<Self, Memory>
        ensures empty { IfOk result (λ h. h.items ≡ []) }
        ensures cap { IfOk result (λ h. h.cap ≡ cap) }
    {
        let records = Vec::with_capacity(alloc, cap as usize)?;
        Ok(InsertionHeap {
            records,
            heaped: 0,
            cap,
        })
    }

    /// How many records there are.
    #[inline]
    pub fn len(&self) -> u32
        ensures value { result ≡ length self.now.items }
        ensures within { result ≤ self.now.cap }
    {
        self.records.len() as u32
    }

    /// How many records there may be.
    #[inline]
    pub fn cap(&self) -> u32
        ensures { result ≡ self.now.cap }
    {
        self.cap
    }

    /// Whether there is no record.
    #[inline]
    pub fn is_empty(&self) -> bool
        ensures { IsTrue result ↔ (self.now.items ≡ []) }
    {
        self.records.is_empty()
    }

    /// Whether there is no room for one more record.
    #[inline]
    pub fn is_full(&self) -> bool
        ensures { IsTrue result ↔ (length self.now.items ≡ self.now.cap) }
    {
        self.len() == self.cap
    }

    /// The records in the order in which they lie; after `sort_in_place` they ascend.
    #[inline]
    pub fn as_slice(&self) -> &[R]
        ensures { result.now ≡ self.now.items }
    {
        self.records.as_slice()
    }

    /// Adds a record. `Err` hands that very record back; it comes exactly where the heap is full, and
    /// nothing has changed then. It costs at most the binary logarithm of the number of records in
    /// comparisons, and two on average for records in random order; and as much again for each record that
    /// was appended since the last push, pop or sort.
    #[inline]
    pub fn try_push(&mut self, item: R) -> Result<(), R>
        ensures full { IsErr result ↔ (length self.old.items ≡ self.old.cap) }
        ensures added { OnOk result (IsSameBag self.new.items (item ∷ self.old.items)) }
        ensures back { IfErr result (λ refused. refused ≡ item) }
        ensures same { OnErr result (self.new.items ≡ self.old.items) }
        ensures cap { self.new.cap ≡ self.old.cap }
    {
        match self.try_append(item) {
            Err(refused) => Err(refused),
            Ok(()) => {
                self.restore();
                Ok(())
            }
        }
    }

    /// Adds a record and does not put it into its place, which costs no comparison. `Err` hands that very
    /// record back; it comes exactly where the heap is full, and nothing has changed then.
    ///
    /// The next push or pop makes up for it, with what a push costs for each record that was appended. A heap
    /// that is filled, sorted and emptied never does.
    #[inline]
    pub fn try_append(&mut self, item: R) -> Result<(), R>
        ensures full { IsErr result ↔ (length self.old.items ≡ self.old.cap) }
        ensures added { OnOk result (IsSameBag self.new.items (item ∷ self.old.items)) }
        ensures back { IfErr result (λ refused. refused ≡ item) }
        ensures same { OnErr result (self.new.items ≡ self.old.items) }
        ensures cap { self.new.cap ≡ self.old.cap }
    {
        if self.is_full() {
            return Err(item);
        }
        self.records.push_reserved(item);
        Ok(())
    }

    // Puts each record that was appended into its place.
    #[inline]
    fn restore(&mut self)
        ensures heap { IsMinHeap (is_before R.Ord.cmp) self.new.items }
        ensures bag { IsSameBag self.new.items self.old.items }
        ensures cap { self.new.cap ≡ self.old.cap }
    {
        rise_all(self.records.as_mut_slice(), self.heaped as usize);
        self.heaped = self.records.len() as u32;
    }

    /// The smallest record; `None` exactly where there is none. It makes one comparison for each record that
    /// was appended since the last push, pop or sort, and so mostly none.
    #[inline]
    pub fn min(&self) -> Option<R>
        ensures value { result ≡ least R.Ord.cmp self.now.items }
        ensures none { IsNone result ↔ (self.now.items ≡ []) }
    {
        record_laws::<R>();
        smallest(self.records.as_slice(), self.heaped as usize)
    }

    /// Takes the smallest record out; `None` exactly where there is none. It costs about the binary
    /// logarithm of the number of records in comparisons, and what a push costs for each record that was
    /// appended since the last push, pop or sort.
    pub fn pop(&mut self) -> Option<R>
        ensures value { result ≡ least R.Ord.cmp self.old.items }
        ensures taken { IfSome result (λ taken. IsSameBag self.old.items (taken ∷ self.new.items)) }
        ensures none { IsNone result ↔ (self.old.items ≡ []) }
        ensures left { IsNone result → self.new.items ≡ [] }
        ensures cap { self.new.cap ≡ self.old.cap }
    {
        record_laws::<R>();
        self.restore();
        let Some(last) = self.records.pop() else {
            return None;
        };
        self.heaped = self.records.len() as u32;
        if self.records.is_empty() {
            return Some(last);
        }
        Some(replace_root(self.records.as_mut_slice(), last))
    }

    /// Puts the records into ascending order. The heap can be used on: an ascending list is a heap.
    pub fn sort_in_place(&mut self)
        ensures items { self.new.items ≡ ascending R.Ord.cmp self.old.items }
        ensures ascends { Ascends R.Ord.cmp self.new.items }
        ensures cap { self.new.cap ≡ self.old.cap }
    {
        record_laws::<R>();
        sort(self.records.as_mut_slice());
        self.heaped = self.records.len() as u32;
    }

    /// Takes the first `n` records off a heap whose records ascend, as after `sort_in_place`; the
    /// others move to the front. It costs a move of each of these.
    pub fn take_front(&mut self, n: u32)
        requires ascends { Ascends R.Ord.cmp self.old.items }
        requires within { n ≤ length self.old.items }
        ensures items { self.new.items ≡ drop n self.old.items }
        ensures ascends { Ascends R.Ord.cmp self.new.items }
        ensures cap { self.new.cap ≡ self.old.cap }
    {
        let rest = self.records.len() - n as usize;
        self.records.copy_within(n as usize.., 0);
        self.records.truncate(rest);
        self.heaped = rest as u32;
    }

    /// Empties the heap; its room stays.
    pub fn clear(&mut self)
        ensures items { self.new.items ≡ [] }
        ensures cap { self.new.cap ≡ self.old.cap }
    {
        self.records.clear();
        self.heaped = 0;
    }
}

// The smallest of some records, the first of which are a heap: it looks at the root and at those behind the
// heap.
#[inline]
fn smallest<R: Record>(items: &[R], heaped: usize) -> Option<R>
    requires within { heaped ≤ length items.now }
    requires heap { IsMinHeap (is_before R.Ord.cmp) (take heaped items.now) }
    ensures { result ≡ least R.Ord.cmp items.now }
{
    record_laws::<R>();
    let mut best = items[..heaped].first().copied();
    for place in heaped..items.len() {
        best = lesser(best, items[place]);
    }
    best
}

// The smallest record of a multiset with one record more.
#[inline]
fn lesser<R: Record>(best: Option<R>, item: R) -> Option<R>
    ensures { (old new : List R) → best ≡ least R.Ord.cmp old → IsSameBag new (item ∷ old) → result ≡ least R.Ord.cmp new }
{
    record_laws::<R>();
    match best {
        None => Some(item),
        Some(least) => Some(R::either(item.is_less(&least), least, item)),
    }
}
