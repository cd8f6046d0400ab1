//! The tree of minima.
ghost use Rattle.std.specs.Prelude.{◌≡◌, ◌↔◌, ℕ, ◌+◌, ◌-◌, ◌*◌, ◌^◌, ◌<◌, ◌≤◌, None, length, replicate, slice_index_or, slice_set, vec_capacity, IfOk, IfSome, IsNone};
ghost use Rattle.ppq_tree.specs.Levels.{leaf_level};
ghost use Rattle.ppq_tree.specs.Used.{used};
ghost use Rattle.ppq_tree.specs.Tree.{winner_at, HasNoItems, IsLeastLeaf};

use crate::Steps;
use crate::apart::{APART, apart, play_used, used, write_used};
use crate::heads::{Heads, NoHeads};
use ppq_record::{Memory, Record, record_laws};
use std::alloc::Global;
use std::marker::{Brand, Model};
use std::sync::ledger::{Blank, Ledger};

/// The smallest of some leaves, each of which has a record or none.
///
/// Its memory is taken once, for `room` leaves; then it can be made a tree of any number of leaves up
/// to that. Contracts see `items`, the list of the leaves' items, and `room`.
#[derive(Drop)]
pub struct MinTree<R: Record> {
    // Unused cells, and then the item of each leaf.
    items: Vec<Option<R>>,
    // Unused cells, and then the leaf that won at each node: node 1 is the root, the children of node
    // u are 2u and 2u + 1, and with n leaves the leaf i is the node n + i. Entry 0 is not used.
    winners: Vec<u32>,
    // How many leaves there may be; both vectors have room for so many from the beginning.
    room: u32,
}

impl<R: Record> Model for MinTree<R> {
    ghost use Rattle.std.specs.Prelude.{◌+◌, ◌*◌, ◌≤◌, ◌<◌, ◌^◌, length, vec_capacity};
    ghost use Rattle.ppq_tree.specs.Used.{used};
    ghost use Rattle.ppq_tree.specs.Tree.{Leaves, IsMinTree};

    ghost Value = { Leaves R };

    ghost view = { λ t. record { items = used t.items.items; room = t.room } };

    ghost invariant = { λ t. (32 ≤ length t.items.items) × (32 ≤ length t.winners.items) × (length (used t.items.items) ≤ t.room) × (t.room < 2 ^ 32) × (32 + t.room ≤ vec_capacity t.items) × (32 + 2 * t.room ≤ vec_capacity t.winners) × IsMinTree R.Ord.cmp (used t.items.items) (used t.winners.items) };
}

impl<R: Record> MinTree<R> {
    /// A tree of so many leaves, none of which has an item, and with room for no more. It is the only
    /// call that allocates.
    pub fn new(alloc: Global, leaves: u32) -> Result<Self, Memory>
        ensures items { IfOk result (λ tree. tree.items ≡ replicate leaves None) }
        ensures room { IfOk result (λ tree. tree.room ≡ leaves) }
    {
        let items = apart(alloc, leaves as usize, None)?;
        let winners = apart(alloc, 2 * leaves as usize, 0)?;
        let mut tree = MinTree {
            items,
            winners,
            room: leaves,
        };
        tree.clear(leaves);
        Ok(tree)
    }

    /// How many leaves there are.
    #[inline]
    pub fn leaves(&self) -> u32
        ensures leaves { result ≡ length self.now.items }
        ensures within { result ≤ self.now.room }
    {
        used(self.items.as_slice()).len() as u32
    }

    /// How many leaves there may be.
    #[inline]
    pub fn room(&self) -> u32
        ensures { result ≡ self.now.room }
    {
        self.room
    }

    /// The item of a leaf.
    #[inline]
    pub fn item(&self, leaf: u32) -> Option<R>
        requires { leaf < length self.now.items }
        ensures { result ≡ slice_index_or self.now.items leaf None }
    {
        used(self.items.as_slice())[leaf as usize]
    }

    /// Gives a leaf an item, or none, and plays its matches again. A step is a match of two leaves;
    /// there is one on each level above the leaf, so at most as many as the number of leaves has
    /// binary digits.
    #[inline]
    pub fn set<L: Ledger>(&mut self, leaf: u32, item: Option<R>, steps: &mut Steps<L>)
        requires { leaf < length self.old.items }
        ensures items { self.new.items ≡ slice_set self.old.items leaf item }
        ensures room { self.new.room ≡ self.old.room }
        ensures cost { steps.new ≡ steps.old + leaf_level (length self.old.items) leaf }
    {
        write_used(
            self.items.as_mut_slice(),
            self.winners.as_mut_slice(),
            leaf,
            item,
            steps,
        );
    }

    /// `set` for a caller that counts nothing.
    #[inline]
    pub fn put(&mut self, leaf: u32, item: Option<R>)
        requires { leaf < length self.old.items }
        ensures items { self.new.items ≡ slice_set self.old.items leaf item }
        ensures room { self.new.room ≡ self.old.room }
    {
        self.put_counted::<Brand>(leaf, item, Blank::new(1));
    }

    // `put` with its ledger.
    #[inline]
    fn put_counted<L: Ledger>(&mut self, leaf: u32, item: Option<R>, blank: Blank)
        requires leaf { leaf < length self.old.items }
        requires parts { blank.parts ≡ L.parts }
        requires name { blank.name ≡ L.name }
        requires some { 0 < L.parts }
        ensures items { self.new.items ≡ slice_set self.old.items leaf item }
        ensures room { self.new.room ≡ self.old.room }
    {
        let mut steps = Steps::<L>::new(blank);
        self.set(leaf, item, &mut steps);
    }

    /// Makes the tree one of as many leaves as there are heads, with their items, and plays each match
    /// once. A step is a match of two leaves; there is one less than there are leaves.
    pub fn set_all<H: Heads<R>, L: Ledger>(&mut self, heads: &H, steps: &mut Steps<L>)
        requires { length (H.heads heads.now) ≤ self.old.room }
        ensures items { self.new.items ≡ H.heads heads.now }
        ensures room { self.new.room ≡ self.old.room }
        ensures cost { steps.new ≡ steps.old + (length (H.heads heads.now) - 1) }
    {
        write_heads(&mut self.items, heads);
        write_numbers(&mut self.winners, heads.leaves());
        play_used(self.items.as_slice(), self.winners.as_mut_slice(), steps);
    }

    /// `set_all` for a caller that counts nothing.
    pub fn put_all<H: Heads<R>>(&mut self, heads: &H)
        requires { length (H.heads heads.now) ≤ self.old.room }
        ensures items { self.new.items ≡ H.heads heads.now }
        ensures room { self.new.room ≡ self.old.room }
    {
        self.put_all_counted::<H, Brand>(heads, Blank::new(1));
    }

    // `put_all` with its ledger.
    fn put_all_counted<H: Heads<R>, L: Ledger>(&mut self, heads: &H, blank: Blank)
        requires heads { length (H.heads heads.now) ≤ self.old.room }
        requires parts { blank.parts ≡ L.parts }
        requires name { blank.name ≡ L.name }
        requires some { 0 < L.parts }
        ensures items { self.new.items ≡ H.heads heads.now }
        ensures room { self.new.room ≡ self.old.room }
    {
        let mut steps = Steps::<L>::new(blank);
        self.set_all(heads, &mut steps);
    }

    /// Makes the tree one of so many leaves, none of which has an item. It does not allocate and
    /// costs time in proportion to that number.
    pub fn clear(&mut self, leaves: u32)
        requires { leaves ≤ self.old.room }
        ensures items { self.new.items ≡ replicate leaves None }
        ensures room { self.new.room ≡ self.old.room }
    {
        self.put_all(&NoHeads { leaves });
    }

    /// The smallest item with its leaf, the lowest leaf among equals; `None` if and only if no leaf
    /// has an item. It plays no match.
    #[inline]
    pub fn winner(&self) -> Option<(u32, R)>
        ensures some { IfSome result (λ won. IsLeastLeaf R.Ord.cmp self.now.items won.0 won.1) }
        ensures leaf { IfSome result (λ won. won.0 < length self.now.items) }
        ensures none { IsNone result ↔ HasNoItems self.now.items }
    {
        record_laws::<R>();
        let items = used(self.items.as_slice());
        if items.is_empty() {
            return None;
        }
        let winners = used(self.winners.as_slice());
        let leaf = winners[1];
        let found = items[leaf as usize];
        match found {
            Some(item) => Some((leaf, item)),
            None => None,
        }
    }
}

/// The law of levels, as clauses for the proof of whoever calls it, and for a reader: a leaf has as many
/// levels above it as the number of its node has binary digits after the first; so there are at most as
/// many as the number of leaves has binary digits. It does nothing.
#[inline]
pub fn leaf_levels()
    ensures least { (leaves leaf : ℕ) → leaf < leaves → 2 ^ leaf_level leaves leaf ≤ leaves + leaf }
    ensures most { (leaves leaf : ℕ) → leaf < leaves → leaves + leaf < 2 ^ (leaf_level leaves leaf + 1) }
    ensures few { (leaves leaf : ℕ) → leaf < leaves → 2 ^ leaf_level leaves leaf ≤ 2 * leaves }
{}

// Writes the item of each leaf.
fn write_heads<R: Record, H: Heads<R>>(items: &mut Vec<Option<R>>, heads: &H)
    requires apart { 32 ≤ length items.old.items }
    requires room { 32 + length (H.heads heads.now) ≤ vec_capacity items.old }
    ensures items { used items.new.items ≡ H.heads heads.now }
    ensures apart { 32 ≤ length items.new.items }
    ensures capacity { vec_capacity items.new ≡ vec_capacity items.old }
{
    items.truncate(APART);
    for leaf in 0..heads.leaves() {
        items.push_reserved(heads.head(leaf));
    }
}

// Writes a place for each inner node, and then each leaf's number at the leaf.
fn write_numbers(winners: &mut Vec<u32>, leaves: u32)
    requires apart { 32 ≤ length winners.old.items }
    requires room { 32 + 2 * leaves ≤ vec_capacity winners.old }
    ensures apart { 32 ≤ length winners.new.items }
    ensures size { length (used winners.new.items) ≡ 2 * leaves }
    ensures leaves { (leaf : _) → leaf < leaves → winner_at (used winners.new.items) (leaves + leaf) ≡ leaf }
    ensures capacity { vec_capacity winners.new ≡ vec_capacity winners.old }
{
    winners.truncate(APART);
    for _node in 0..leaves {
        winners.push_reserved(0);
    }
    for leaf in 0..leaves {
        winners.push_reserved(leaf);
    }
}
