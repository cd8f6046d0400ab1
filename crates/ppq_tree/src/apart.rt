//! Cells that stand apart from whatever else lies in memory.
ghost use Rattle.std.specs.Prelude.{◌≡◌, ◌+◌, ◌-◌, ◌*◌, ◌^◌, ◌<◌, ◌≤◌, [], length, slice_set, vec_capacity, IfOk};
ghost use Rattle.ppq_tree.specs.Used.{used};
ghost use Rattle.ppq_tree.specs.Levels.{leaf_level};
ghost use Rattle.ppq_tree.specs.Tree.{winner_at, IsMinTree};

use crate::Steps;
use crate::climb::write_leaf;
use crate::matches::play_all;
use ppq_record::{Memory, Record};
use std::alloc::Global;
use std::sync::ledger::Ledger;

// How many cells stand unused in front of those that a tree uses, and how many there is room for
// after them. A tree is written at each match: 32 cells are 128 bytes and more, so no line of the
// cache that one thread writes, nor its neighbour, has what another thread reads.
pub(crate) const APART: usize = 32;

// Room for so many cells, after unused ones.
pub(crate) fn apart<T: Copy + Drop>(
    alloc: Global,
    cells: usize,
    unused: T,
) -> Result<Vec<T>, Memory>
    requires { cells < 2 ^ 34 }
    ensures front { IfOk result (λ all. length all.items ≡ 32) }
    ensures rest { IfOk result (λ all. used all.items ≡ []) }
    ensures capacity { IfOk result (λ all. 32 + cells ≤ vec_capacity all) }
{
    let mut all = Vec::with_capacity(alloc, APART + cells + APART)?;
    for _cell in 0..APART {
        all.push_reserved(unused);
    }
    Ok(all)
}

// The cells that are used.
#[inline]
pub(crate) fn used<T: Copy>(all: &[T]) -> &[T]
    requires { 32 ≤ length all.now }
    ensures { result.now ≡ used all.now }
{
    let (_front, cells) = all.split_at(APART);
    cells
}

// Writes the item of a leaf and plays the leaf's matches again.
#[inline]
pub(crate) fn write_used<R: Record, L: Ledger>(
    items: &mut [Option<R>],
    winners: &mut [u32],
    leaf: u32,
    item: Option<R>,
    steps: &mut Steps<L>,
)
    requires items_apart { 32 ≤ length items.old }
    requires winners_apart { 32 ≤ length winners.old }
    requires leaf { leaf < length (used items.old) }
    requires room { length (used items.old) < 2 ^ 32 }
    requires tree { IsMinTree R.Ord.cmp (used items.old) (used winners.old) }
    ensures items { used items.new ≡ slice_set (used items.old) leaf item }
    ensures tree { IsMinTree R.Ord.cmp (used items.new) (used winners.new) }
    ensures cost { steps.new ≡ steps.old + leaf_level (length (used items.old)) leaf }
{
    let (_front, used_items) = items.split_at_mut(APART);
    let (_front, used_winners) = winners.split_at_mut(APART);
    write_leaf(used_items, used_winners, leaf, item, steps);
}

// Plays every match once, the last first, where each leaf has its own number.
pub(crate) fn play_used<R: Record, L: Ledger>(
    items: &[Option<R>],
    winners: &mut [u32],
    steps: &mut Steps<L>,
)
    requires items_apart { 32 ≤ length items.now }
    requires winners_apart { 32 ≤ length winners.old }
    requires size { length (used winners.old) ≡ 2 * length (used items.now) }
    requires leaves { (leaf : _) → leaf < length (used items.now) → winner_at (used winners.old) (length (used items.now) + leaf) ≡ leaf }
    ensures tree { IsMinTree R.Ord.cmp (used items.now) (used winners.new) }
    ensures cost { steps.new ≡ steps.old + (length (used items.now) - 1) }
{
    let (_front, used_winners) = winners.split_at_mut(APART);
    play_all(used(items), used_winners, steps);
}
