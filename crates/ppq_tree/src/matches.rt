//! The matches of a tournament: who wins a match, the match at a node, and all matches.
ghost use Rattle.std.specs.Prelude.{◌≡◌, ◌+◌, ◌-◌, ◌*◌, ◌<◌, if◌then◌else◌, length, slice_set};
ghost use Rattle.ppq_tree.specs.Tree.{ahead, better, winner_at, IsMinTree};

use crate::Steps;
use ppq_record::{Record, record_laws};
use std::sync::ledger::Ledger;

// Plays a match between two leaves; the winner is the one with the lesser item, the lower leaf among
// equals. A leaf with no item loses.
#[inline]
fn better<R: Record, L: Ledger>(
    items: &[Option<R>],
    one: u32,
    other: u32,
    steps: &mut Steps<L>,
) -> u32
    requires one { one < length items.now }
    requires other { other < length items.now }
    ensures winner { result ≡ better R.Ord.cmp items.now one other }
    ensures cost { steps.new ≡ steps.old + 1 }
{
    steps.tick();
    match (items[one as usize], items[other as usize]) {
        (Some(x), Some(y)) => either(is_ahead(&y, other, &x, one), one, other),
        (Some(_), None) => one,
        (None, _) => other,
    }
}

// One of two leaves. A function of its own, whose choice is compiled with no branch: which leaf
// wins cannot be foreseen.
#[inline]
pub(crate) fn either(is_other: bool, one: u32, other: u32) -> u32
    ensures { result ≡ (if is_other then other else one) }
{
    if is_other { other } else { one }
}

// Plays the match at a node.
#[inline]
pub(crate) fn play<R: Record, L: Ledger>(
    items: &[Option<R>],
    winners: &mut [u32],
    node: usize,
    steps: &mut Steps<L>,
)
    requires children { 2 * node + 1 < length winners.old }
    requires one { winner_at winners.old (2 * node) < length items.now }
    requires other { winner_at winners.old (2 * node + 1) < length items.now }
    ensures winner { winners.new ≡ slice_set winners.old node (better R.Ord.cmp items.now (winner_at winners.old (2 * node)) (winner_at winners.old (2 * node + 1))) }
    ensures cost { steps.new ≡ steps.old + 1 }
{
    winners[node] = better(items, winners[2 * node], winners[2 * node + 1], steps);
}

// Whether an item is less than another, or equal with a lower leaf.
#[inline]
pub(crate) fn is_ahead<R: Record>(other: &R, rival: u32, item: &R, best: u32) -> bool
    ensures { result ≡ ahead R.Ord.cmp (other.now, rival) (item.now, best) }
{
    record_laws::<R>();
    let is_less = other.is_less(item);
    let is_more = item.is_less(other);
    is_less | (!is_more & (rival < best))
}

// Plays every match once, the last first, where each leaf has its own number.
pub(crate) fn play_all<R: Record, L: Ledger>(
    items: &[Option<R>],
    winners: &mut [u32],
    steps: &mut Steps<L>,
)
    requires size { length winners.old ≡ 2 * length items.now }
    requires leaves { (leaf : _) → leaf < length items.now → winner_at winners.old (length items.now + leaf) ≡ leaf }
    ensures tree { IsMinTree R.Ord.cmp items.now winners.new }
    ensures cost { steps.new ≡ steps.old + (length items.now - 1) }
{
    let mut node = items.len();
    while node > 1 {
        node -= 1;
        play(items, winners, node, steps);
    }
}
