//! A leaf whose item changes: it plays its matches again, up to the root.
ghost use Rattle.std.specs.Prelude.{◌≡◌, ◌+◌, ◌/◌, ◌^◌, ◌<◌, length, slice_set};
ghost use Rattle.ppq_tree.specs.Levels.{leaf_level};
ghost use Rattle.ppq_tree.specs.Tree.{better, HasItem, IsMinTree, IsTreeAbove};

use crate::Steps;
use crate::matches::{either, is_ahead, play};
use ppq_record::{Record, record_laws};
use std::sync::ledger::Ledger;

// Writes the item of a leaf and plays the leaf's matches again.
pub(crate) fn write_leaf<R: Record, L: Ledger>(
    items: &mut [Option<R>],
    winners: &mut [u32],
    leaf: u32,
    item: Option<R>,
    steps: &mut Steps<L>,
)
    requires leaf { leaf < length items.old }
    requires room { length items.old < 2 ^ 32 }
    requires tree { IsMinTree R.Ord.cmp items.old winners.old }
    ensures items { items.new ≡ slice_set items.old leaf item }
    ensures tree { IsMinTree R.Ord.cmp items.new winners.new }
    ensures cost { steps.new ≡ steps.old + leaf_level (length items.old) leaf }
{
    items[leaf as usize] = item;
    let Some(some) = item else {
        climb(items, winners, leaf, steps);
        return;
    };
    climb_with(items, winners, leaf, some, steps);
}

// Plays the matches of a leaf again, up to the root; the other matches stand.
fn climb<R: Record, L: Ledger>(
    items: &[Option<R>],
    winners: &mut [u32],
    leaf: u32,
    steps: &mut Steps<L>,
)
    requires leaf { leaf < length items.now }
    requires room { length items.now < 2 ^ 32 }
    requires tree { IsTreeAbove R.Ord.cmp items.now winners.old ((length items.now + leaf) / 2) }
    ensures tree { IsMinTree R.Ord.cmp items.now winners.new }
    ensures cost { steps.new ≡ steps.old + leaf_level (length items.now) leaf }
{
    let mut node = items.len() + leaf as usize;
    while node > 1 {
        node /= 2;
        play(items, winners, node, steps);
    }
}

// Plays the matches of a leaf that has an item, up to the root, while it carries the winner and its
// item along: so a match waits for nothing but the one before it. The other matches stand.
fn climb_with<R: Record, L: Ledger>(
    items: &[Option<R>],
    winners: &mut [u32],
    leaf: u32,
    item: R,
    steps: &mut Steps<L>,
)
    requires leaf { leaf < length items.now }
    requires room { length items.now < 2 ^ 32 }
    requires item { HasItem items.now leaf item }
    requires tree { IsTreeAbove R.Ord.cmp items.now winners.old ((length items.now + leaf) / 2) }
    ensures tree { IsMinTree R.Ord.cmp items.now winners.new }
    ensures cost { steps.new ≡ steps.old + leaf_level (length items.now) leaf }
{
    record_laws::<R>();
    let mut child = items.len() + leaf as usize;
    let mut best = leaf;
    let mut best_item = item;
    while child > 1 {
        let parent = child / 2;
        let rival = winners[4 * parent + 1 - child];
        let won = duel(items, rival, best, best_item, steps);
        best = won.0;
        best_item = won.1;
        winners[parent] = best;
        child = parent;
    }
}

// Plays a match between a leaf with an item and a rival; it returns the winner with its item.
#[inline]
fn duel<R: Record, L: Ledger>(
    items: &[Option<R>],
    rival: u32,
    best: u32,
    item: R,
    steps: &mut Steps<L>,
) -> (u32, R)
    requires rival { rival < length items.now }
    requires item { HasItem items.now best item }
    ensures winner { result.0 ≡ better R.Ord.cmp items.now best rival }
    ensures item { HasItem items.now result.0 result.1 }
    ensures cost { steps.new ≡ steps.old + 1 }
{
    steps.tick();
    let found = items[rival as usize];
    let Some(other) = found else {
        return (best, item);
    };
    record_laws::<R>();
    let wins = is_ahead(&other, rival, &item, best);
    // Equal items are identical, so the item need not wait for the leaves' numbers.
    let is_less = other.is_less(&item);
    (either(wins, best, rival), R::either(is_less, item, other))
}
