//! Trees of minima, of pairs.
ghost use Rattle.std.specs.Prelude.{◌≡◌, ◌^◌, ◌<◌, length};

use crate::pairs::pair;
use ppq_record::Pair;
use ppq_tree::{Heads, MinTree, Steps, leaf_levels};
use std::alloc::Global;
use std::marker::Brand;
use std::process::Abort;
use std::sync::ledger::{Blank, Ledger};

// A tree with so many leaves, none of which has an item.
fn tree_of(rt: &impl Abort, alloc: Global, leaves: u32) -> MinTree<Pair>
    ensures items { length result.items ≡ leaves }
    ensures room { result.room ≡ leaves }
{
    MinTree::new(alloc, leaves).expect(rt, "memory")
}

// The pair with this key wins at this leaf; or none does.
fn wins(rt: &impl Abort, tree: &MinTree<Pair>, winner: Option<(u32, u64)>) {
    let want = winner.map(|(leaf, key)| (leaf, pair(key)));
    assert!(rt; tree.winner() == want);
}

// A leaf gets the pair with this key or none, and then this one wins.
fn put(
    rt: &impl Abort,
    tree: &mut MinTree<Pair>,
    leaf: u32,
    key: Option<u64>,
    winner: Option<(u32, u64)>,
)
    requires { leaf < length tree.old.items }
    ensures items { length tree.new.items ≡ length tree.old.items }
    ensures room { tree.new.room ≡ tree.old.room }
{
    tree.put(leaf, key.map(pair));
    wins(rt, tree, winner);
}

#[test]
fn the_lowest_of_equal_leaves_wins(rt: HostRuntime) {
    let mut tree = tree_of(&rt, rt.alloc(), 3);
    assert!(rt; tree.leaves() == 3);
    put(&rt, &mut tree, 0, Some(5), Some((0, 5)));
    put(&rt, &mut tree, 1, Some(3), Some((1, 3)));
    put(&rt, &mut tree, 2, Some(3), Some((1, 3)));
    put(&rt, &mut tree, 1, None, Some((2, 3)));
    assert!(rt; (tree.item(0) == Some(pair(5))) & tree.item(1).is_none());
}

#[test]
fn leaves_without_items_have_no_winner(rt: HostRuntime) {
    wins(&rt, &tree_of(&rt, rt.alloc(), 0), None);
    let mut tree = tree_of(&rt, rt.alloc(), 5);
    wins(&rt, &tree, None);
    put(&rt, &mut tree, 4, Some(2), Some((4, 2)));
    put(&rt, &mut tree, 4, None, None);
}

#[test]
fn a_single_leaf_is_the_winner(rt: HostRuntime) {
    let mut tree = tree_of(&rt, rt.alloc(), 1);
    put(&rt, &mut tree, 0, Some(7), Some((0, 7)));
    put(&rt, &mut tree, 0, Some(8), Some((0, 8)));
}

#[test]
fn a_counted_step_is_a_match(rt: HostRuntime) {
    let mut tree = tree_of(&rt, rt.alloc(), 8);
    leaf_levels();
    set_counted::<Brand>(&mut tree, Blank::new(1));
    wins(&rt, &tree, Some((6, 1)));
}

// Sets a leaf of eight in three steps.
fn set_counted<L: Ledger>(tree: &mut MinTree<Pair>, blank: Blank)
    requires leaves { length tree.old.items ≡ 8 }
    requires parts { blank.parts ≡ L.parts }
    requires name { blank.name ≡ L.name }
    requires some { 0 < L.parts }
{
    let mut steps = Steps::<L>::new(blank);
    tree.set(6, Some(pair(1)), &mut steps);
    prove_three(&steps);
}

// What the contract of `set` says of the number of steps.
fn prove_three<L: Ledger>(steps: &Steps<L>)
    requires { steps.now ≡ 3 }
{
    let _counted = steps;
}

// Items that are listed, at most 2^32 - 1 of them.
#[derive(Drop)]
struct Listed<'a> {
    items: &'a [Option<Pair>],
    ghost few: { length items.now < 2 ^ 32 },
}

impl<'a> Heads<Pair> for Listed<'a> {
    ghost heads = { λ l. l.items.now };

    fn leaves(&self) -> u32 {
        self.items.len() as u32
    }

    fn head(&self, leaf: u32) -> Option<Pair> {
        self.items[leaf as usize]
    }
}

#[test]
fn all_leaves_get_their_items_at_once(rt: HostRuntime) {
    let mut tree = tree_of(&rt, rt.alloc(), 6);
    assert!(rt; tree.room() == 6);
    let items = [
        Some(pair(4)),
        None,
        Some(pair(2)),
        Some(pair(9)),
        Some(pair(2)),
    ];
    tree.put_all(&Listed { items: &items });
    assert!(rt; (tree.leaves() == 5) & (tree.room() == 6));
    wins(&rt, &tree, Some((2, 2)));
    put(&rt, &mut tree, 2, None, Some((4, 2)));
    tree.put_all(&Listed { items: &items[..2] });
    assert!(rt; tree.leaves() == 2);
    wins(&rt, &tree, Some((0, 4)));
}

#[test]
fn a_tree_is_cleared_within_its_room(rt: HostRuntime) {
    let mut tree = tree_of(&rt, rt.alloc(), 4);
    put(&rt, &mut tree, 3, Some(1), Some((3, 1)));
    tree.clear(3);
    assert!(rt; tree.leaves() == 3);
    wins(&rt, &tree, None);
    put(&rt, &mut tree, 1, Some(6), Some((1, 6)));
    tree.clear(4);
    assert!(rt; tree.leaves() == 4);
    wins(&rt, &tree, None);
}

#[test]
fn all_leaves_cost_one_match_less_than_leaves(rt: HostRuntime) {
    let mut tree = tree_of(&rt, rt.alloc(), 8);
    set_all_counted::<Brand>(&mut tree, Blank::new(1));
    wins(&rt, &tree, Some((1, 3)));
}

// Sets three leaves in two steps.
fn set_all_counted<L: Ledger>(tree: &mut MinTree<Pair>, blank: Blank)
    requires room { tree.old.room ≡ 8 }
    requires parts { blank.parts ≡ L.parts }
    requires name { blank.name ≡ L.name }
    requires some { 0 < L.parts }
{
    let mut steps = Steps::<L>::new(blank);
    let items = [Some(pair(7)), Some(pair(3)), Some(pair(5))];
    tree.set_all(&Listed { items: &items }, &mut steps);
    prove_two(&steps);
}

// What the contract of `set_all` says of the number of steps.
fn prove_two<L: Ledger>(steps: &Steps<L>)
    requires { steps.now ≡ 2 }
{
    let _counted = steps;
}

#[test]
fn a_hundred_random_sets_agree_with_a_scan(rt: HostRuntime) {
    let mut tree = tree_of(&rt, rt.alloc(), 13);
    let mut items: [Option<Pair>; 13] = [None; 13];
    let mut seed = 1u64;
    for _step in 0..100 {
        seed = seed
            .wrapping_mul(6364136223846793005)
            .wrapping_add(1442695040888963407);
        let leaf = (seed >> 40) as u32 % 13;
        let item = if seed >> 62 == 0 {
            None
        } else {
            Some(pair(seed >> 58))
        };
        assert!(rt; tree.leaves() == 13);
        tree.put(leaf, item);
        items[leaf as usize] = item;
        assert!(rt; tree.winner() == scanned(&items));
    }
}

// The smallest of the items of thirteen leaves with the lowest leaf that has it, by a look at each.
fn scanned(items: &[Option<Pair>; 13]) -> Option<(u32, Pair)> {
    let mut best: Option<(u32, Pair)> = None;
    for leaf in 0..13u32 {
        if let Some(item) = items[leaf as usize] {
            best = match best {
                Some(b) if b.1 <= item => Some(b),
                _ => Some((leaf, item)),
            };
        }
    }
    best
}
