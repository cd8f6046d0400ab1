//! The insertion heaps of several workers.
ghost use Rattle.std.specs.Prelude.{◌≡◌, ◌≤◌, ◌<◌, ◌*◌, ◌^◌, ◌↔◌, ◌∷◌, [], ◌++◌, All, if◌then◌else◌, Some, length, replicate, IfErr, IfOk, IfSome, IsErr, IsNone, IsTrue, OnErr, OnOk};
ghost use Rattle.ppq_tree.specs.ppq_record.Order.{Ascends};
ghost use Rattle.ppq_tree.specs.ppq_record.Bag.{IsSameBag, ascending, least};
ghost use Rattle.ppq_heap.specs.Heap.{Contents};
ghost use Rattle.ppq_heap.specs.Heaps.{empty_heap, cap_of, items_in, items_of, share_at, AreShares, HasLeasts, ChangesOnly, LeftOne};

use crate::InsertionHeap;
use ppq_tree::{Memory, MinTree, Record, record_laws};
use std::alloc::Global;
use std::marker::Model;

/// The insertion heaps of a queue, one for each worker, and a tree of their smallest records.
///
/// A push goes to the first heap; in a bulk session each worker fills its own. The smallest of all records
/// is at hand. Contracts see the heaps in order, `heaps`, and how many records each has room for, `cap`.
#[derive(Drop)]
pub struct Heaps<R: Record> {
    // A heap for each worker, all of them with the same room.
    heaps: Vec<InsertionHeap<R>>,
    // A leaf for each heap, with its smallest record.
    tree: MinTree<R>,
}

impl<R: Record> Model for Heaps<R> {
    ghost use Rattle.std.specs.Prelude.{length};
    ghost use Rattle.ppq_heap.specs.Heaps.{Shares, cap_of, AreShares, HasLeasts};

    ghost Value = { Shares R };

    ghost view = { λ h. record { heaps = h.heaps.items; cap = cap_of h.heaps.items } };

    ghost invariant = { λ h. AreShares (record { heaps = h.heaps.items; cap = cap_of h.heaps.items }) × HasLeasts R.Ord.cmp h.heaps.items h.tree.items };
}

impl<R: Record> Heaps<R> {
    /// An empty heap for each worker, with room for `cap` records. It is the only call that takes memory.
    pub fn new(alloc: Global, workers: u32, cap: u32) -> Result<Self, Memory>
        requires { 0 < workers }
        ensures heaps { IfOk result (λ made. made.heaps ≡ replicate workers (empty_heap cap)) }
        ensures cap { IfOk result (λ made. made.cap ≡ cap) }
        ensures empty { IfOk result (λ made. items_of made ≡ []) }
    {
        let heaps = empty_heaps(alloc, workers, cap)?;
        let tree = MinTree::new(alloc, workers)?;
        Ok(Heaps { heaps, tree })
    }

    /// What holds of all shares, as a clause for the proof of whoever calls it. It does nothing.
    #[inline]
    pub fn known(&self)
        ensures { AreShares self.now }
    {
        let _leaves = self.tree.leaves();
    }

    /// How many heaps there are, one at least.
    #[inline]
    pub fn count(&self) -> u32
        ensures count { result ≡ length self.now.heaps }
        ensures some { 0 < result }
    {
        self.tree.leaves()
    }

    /// How many records all heaps have. It costs a look at each heap.
    pub fn len(&self) -> u64
        ensures value { result ≡ length (items_of self.now) }
        ensures within { result ≤ length self.now.heaps * self.now.cap }
    {
        length_of_all(self.heaps.as_slice())
    }

    /// Whether the first heap has no room for one more record.
    #[inline]
    pub fn is_full(&self) -> bool
        ensures { IsTrue result ↔ (length (share_at self.now 0) ≡ self.now.cap) }
    {
        self.heaps[0].is_full()
    }

    /// Adds a record to the first heap. `Err` hands that very record back; it comes exactly where the first
    /// heap is full, and nothing has changed then. It costs what a push to a heap costs and one comparison
    /// more, and a match on each level of the tree where the record is the heap's new smallest.
    #[inline]
    pub fn try_push(&mut self, item: R) -> Result<(), R>
        ensures full { IsErr result ↔ (length (share_at self.old 0) ≡ self.old.cap) }
        ensures added { OnOk result (IsSameBag (items_of self.new) (item ∷ items_of self.old)) }
        ensures share { OnOk result (IsSameBag (share_at self.new 0) (item ∷ share_at self.old 0)) }
        ensures others { ChangesOnly 0 self.old self.new }
        ensures back { IfErr result (λ refused. refused ≡ item) }
        ensures same { OnErr result (self.new ≡ self.old) }
    {
        match push(&mut self.heaps[0], item) {
            Err(refused) => Err(refused),
            Ok(is_least) => {
                if is_least {
                    self.tree.put(0, Some(item));
                }
                Ok(())
            }
        }
    }

    /// The smallest record of all heaps; `None` exactly where there is none. It makes no comparison.
    #[inline]
    pub fn min(&self) -> Option<R>
        ensures value { result ≡ least R.Ord.cmp (items_of self.now) }
        ensures none { IsNone result ↔ (items_of self.now ≡ []) }
    {
        record_laws::<R>();
        match self.tree.winner() {
            None => None,
            Some(won) => Some(won.1),
        }
    }

    /// Takes the smallest record of all heaps out of its heap; `None` exactly where there is none. It costs a
    /// pop of that heap and a match on each level of the tree.
    pub fn pop(&mut self) -> Option<R>
        ensures value { result ≡ least R.Ord.cmp (items_of self.old) }
        ensures taken { IfSome result (λ taken. IsSameBag (items_of self.old) (taken ∷ items_of self.new)) }
        ensures left { IfSome result (λ taken. LeftOne self.old taken self.new) }
        ensures none { IsNone result ↔ (items_of self.old ≡ []) }
        ensures same { IsNone result → self.new ≡ self.old }
        ensures shorter { (place : _) → length (share_at self.new place) ≤ length (share_at self.old place) }
        ensures count { length self.new.heaps ≡ length self.old.heaps }
        ensures cap { self.new.cap ≡ self.old.cap }
    {
        record_laws::<R>();
        let Some(won) = self.tree.winner() else {
            return None;
        };
        let next = take_least(&mut self.heaps[won.0 as usize]);
        self.tree.put(won.0, next);
        Some(won.1)
    }

    /// The records of a heap in the order in which they lie; after `sort_share` they ascend.
    #[inline]
    pub fn share(&self, place: u32) -> &[R]
        requires { place < length self.now.heaps }
        ensures items { result.now ≡ share_at self.now place }
        ensures within { length result.now ≤ self.now.cap }
    {
        self.heaps[place as usize].as_slice()
    }

    /// Puts the records of a heap into ascending order. All heaps can be used on.
    pub fn sort_share(&mut self, place: u32)
        requires { place < length self.old.heaps }
        ensures share { share_at self.new place ≡ ascending R.Ord.cmp (share_at self.old place) }
        ensures ascends { Ascends R.Ord.cmp (share_at self.new place) }
        ensures others { ChangesOnly place self.old self.new }
        ensures bag { IsSameBag (items_of self.new) (items_of self.old) }
    {
        record_laws::<R>();
        self.heaps[place as usize].sort_in_place();
    }

    /// Empties a heap; its room stays.
    pub fn clear_share(&mut self, place: u32)
        requires { place < length self.old.heaps }
        ensures share { share_at self.new place ≡ [] }
        ensures others { ChangesOnly place self.old self.new }
        ensures bag { IsSameBag (items_of self.old) (share_at self.old place ++ items_of self.new) }
    {
        self.heaps[place as usize].clear();
        self.tree.put(place, None);
    }

    /// The heaps, in order, and the tree. `from_parts` puts them together again.
    pub fn into_parts(self) -> (Vec<InsertionHeap<R>>, MinTree<R>)
        ensures known { AreShares self }
        ensures heaps { result.0.items ≡ self.heaps }
        ensures leaves { length result.1.items ≡ length self.heaps }
    {
        (self.heaps, self.tree)
    }

    /// Puts heaps together, at least one, all with the same room, with a tree of as many leaves, which get
    /// the heaps' smallest records anew. It takes no memory and costs a match on each level of the tree for
    /// each heap, and one comparison for each record that was appended to a heap and is not in its place yet.
    pub fn from_parts(heaps: Vec<InsertionHeap<R>>, tree: MinTree<R>) -> Self
        requires some { 0 < length heaps.items }
        requires caps { All (λ heap. heap.cap ≡ cap_of heaps.items) heaps.items }
        requires leaves { length tree.items ≡ length heaps.items }
        ensures heaps { result.heaps ≡ heaps.items }
        ensures cap { result.cap ≡ cap_of heaps.items }
    {
        let mut tree = tree;
        write_leasts(heaps.as_slice(), &mut tree);
        Heaps { heaps, tree }
    }
}

// So many empty heaps with the same room.
fn empty_heaps<R: Record>(
    alloc: Global,
    workers: u32,
    cap: u32,
) -> Result<Vec<InsertionHeap<R>>, Memory>
    ensures { IfOk result (λ heaps. heaps.items ≡ replicate workers (empty_heap cap)) }
{
    let mut heaps = Vec::with_capacity(alloc, workers as usize)?;
    for _worker in 0..workers {
        heaps.push_reserved(InsertionHeap::new(alloc, cap)?);
    }
    Ok(heaps)
}

// How many records some heaps have.
fn length_of_all<R: Record>(heaps: &[InsertionHeap<R>]) -> u64
    requires { length heaps.now < 2 ^ 32 }
    ensures { result ≡ length (items_in heaps.now) }
{
    let mut total = 0u64;
    for place in 0..heaps.len() {
        total += u64::from(heaps[place].len());
    }
    total
}

// Adds a record to a heap, and returns whether it is less than all others there.
#[inline]
fn push<R: Record>(heap: &mut InsertionHeap<R>, item: R) -> Result<bool, R>
    ensures full { IsErr result ↔ (length heap.old.items ≡ heap.old.cap) }
    ensures added { OnOk result (IsSameBag heap.new.items (item ∷ heap.old.items)) }
    ensures least { IfOk result (λ is_least. least R.Ord.cmp heap.new.items ≡ (if is_least then Some item else least R.Ord.cmp heap.old.items)) }
    ensures back { IfErr result (λ refused. refused ≡ item) }
    ensures same { OnErr result (heap.new.items ≡ heap.old.items) }
    ensures cap { heap.new.cap ≡ heap.old.cap }
{
    record_laws::<R>();
    let is_least = match heap.min() {
        None => true,
        Some(least) => item.is_less(&least),
    };
    match heap.try_push(item) {
        Err(refused) => Err(refused),
        Ok(()) => Ok(is_least),
    }
}

// Takes the smallest record out of a heap, and returns the next one.
#[inline]
fn take_least<R: Record>(heap: &mut InsertionHeap<R>) -> Option<R>
    ensures next { result ≡ least R.Ord.cmp heap.new.items }
    ensures taken { (taken : _) → least R.Ord.cmp heap.old.items ≡ Some taken → IsSameBag heap.old.items (taken ∷ heap.new.items) }
    ensures cap { heap.new.cap ≡ heap.old.cap }
{
    heap.pop();
    heap.min()
}

// Gives each leaf of a tree the smallest record of its heap.
fn write_leasts<R: Record>(heaps: &[InsertionHeap<R>], tree: &mut MinTree<R>)
    requires { length tree.old.items ≡ length heaps.now }
    ensures leasts { HasLeasts R.Ord.cmp heaps.now tree.new.items }
    ensures within { All (λ heap. (length heap.items ≤ heap.cap) × (heap.cap < 2 ^ 32)) heaps.now }
    ensures few { length heaps.now < 2 ^ 32 }
{
    for leaf in 0..tree.leaves() {
        let least = least_of(&heaps[leaf as usize]);
        tree.put(leaf, least);
    }
}

// The smallest record of a heap, and that it has no more records than there is room for.
#[inline]
fn least_of<R: Record>(heap: &InsertionHeap<R>) -> Option<R>
    ensures value { result ≡ least R.Ord.cmp heap.now.items }
    ensures within { (length heap.now.items ≤ heap.now.cap) × (heap.now.cap < 2 ^ 32) }
{
    let _count = heap.len();
    let _cap = heap.cap();
    heap.min()
}
