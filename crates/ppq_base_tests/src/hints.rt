//! Hints of which array has the next smallest block.
ghost use Rattle.std.specs.Prelude.{◌≡◌, ◌<◌, length};

use crate::pairs::pair;
use ppq_hints::Hints;
use ppq_record::Pair;
use std::alloc::Global;
use std::process::Abort;

// Hints of so many arrays, none of which has a block.
fn hints_of(rt: &impl Abort, alloc: Global, arrays: u32) -> Hints<Pair>
    ensures items { length result.items ≡ arrays }
    ensures room { result.room ≡ arrays }
{
    Hints::new(alloc, arrays).expect(rt, "memory")
}

// The array whose next block has the smallest minimum is this one, with the pair of this key; or none is.
fn names(rt: &impl Abort, hints: &Hints<Pair>, least: Option<(u32, u64)>) {
    let want = least.map(|(array, key)| (array, pair(key)));
    assert!(rt; hints.least() == want);
}

// An array gets a first block, and then this one is the smallest.
fn add(rt: &impl Abort, hints: &mut Hints<Pair>, array: u32, key: u64, least: (u32, u64))
    requires { array < length hints.old.items }
    ensures items { length hints.new.items ≡ length hints.old.items }
    ensures room { hints.new.room ≡ hints.old.room }
{
    hints.add(array, pair(key));
    names(rt, hints, Some(least));
}

// The next block of an array is loaded, and then this one is the smallest.
fn advance(
    rt: &impl Abort,
    hints: &mut Hints<Pair>,
    array: u32,
    next: Option<u64>,
    least: Option<(u32, u64)>,
)
    requires { array < length hints.old.items }
    ensures items { length hints.new.items ≡ length hints.old.items }
    ensures room { hints.new.room ≡ hints.old.room }
{
    hints.advance(array, next.map(pair));
    names(rt, hints, least);
}

#[test]
fn new_hints_name_no_array(rt: HostRuntime) {
    let hints = hints_of(&rt, rt.alloc(), 2);
    assert!(rt; hints.arrays() == 2);
    names(&rt, &hints, None);
    names(&rt, &hints_of(&rt, rt.alloc(), 0), None);
}

#[test]
fn the_blocks_are_named_in_the_order_of_their_minimums(rt: HostRuntime) {
    // Blocks begin with 4, 9 in the first array, with 2, 5, 7 in the second, with 5 in the third.
    let mut hints = hints_of(&rt, rt.alloc(), 3);
    add(&rt, &mut hints, 0, 4, (0, 4));
    add(&rt, &mut hints, 1, 2, (1, 2));
    add(&rt, &mut hints, 2, 5, (1, 2));
    advance(&rt, &mut hints, 1, Some(5), Some((0, 4)));
    advance(&rt, &mut hints, 0, Some(9), Some((1, 5)));
    advance(&rt, &mut hints, 1, Some(7), Some((2, 5)));
    advance(&rt, &mut hints, 2, None, Some((1, 7)));
    advance(&rt, &mut hints, 1, None, Some((0, 9)));
    advance(&rt, &mut hints, 0, None, None);
}

#[test]
fn hints_are_cleared_within_their_room(rt: HostRuntime) {
    let mut hints = hints_of(&rt, rt.alloc(), 3);
    add(&rt, &mut hints, 2, 1, (2, 1));
    hints.clear(2);
    assert!(rt; hints.arrays() == 2);
    names(&rt, &hints, None);
    add(&rt, &mut hints, 1, 6, (1, 6));
    hints.clear(3);
    assert!(rt; hints.arrays() == 3);
    names(&rt, &hints, None);
}
