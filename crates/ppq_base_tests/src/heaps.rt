//! The heaps of several workers, of pairs.
ghost use Rattle.std.specs.Prelude.{◌≡◌, ◌<◌, length};

use crate::pairs::pair;
use ppq_heap::Heaps;
use ppq_record::Pair;
use std::alloc::Global;
use std::process::Abort;

// Puts the pair with this key into a worker's heap, which is taken out for it and has room.
fn put(rt: &impl Abort, heaps: Heaps<Pair>, worker: u32, key: u64) -> Heaps<Pair>
    requires { worker < length heaps.heaps }
    ensures { length result.heaps ≡ length heaps.heaps }
{
    let (mut parts, tree) = heaps.into_parts();
    assert!(rt; parts[worker as usize].try_push(pair(key)).is_ok());
    Heaps::from_parts(parts, tree)
}

// So many heaps with so much room each, empty.
fn heaps_of(rt: &impl Abort, alloc: Global, count: u32, room: u32) -> Heaps<Pair>
    requires { 0 < count }
    ensures { length result.heaps ≡ count }
{
    Heaps::new(alloc, count, room).expect(rt, "memory")
}

// The first heap takes the pairs with these keys.
fn takes(rt: &impl Abort, heaps: &mut Heaps<Pair>, keys: &[u64])
    ensures { length heaps.new.heaps ≡ length heaps.old.heaps }
{
    'taking: for key in keys {
        assert!(rt; heaps.try_push(pair(*key)).is_ok());
    }
}

// Whether the pair with this key is the smallest.
fn has_least(heaps: &Heaps<Pair>, key: u64) -> bool {
    heaps.min() == Some(pair(key))
}

// Whether pops give the pairs with these keys in turn, and then none.
fn gives(heaps: &mut Heaps<Pair>, keys: &[u64]) -> bool {
    let mut is_same = true;
    for key in keys {
        is_same &= has_least(heaps, *key) & (heaps.pop() == Some(pair(*key)));
    }
    is_same & heaps.pop().is_none() & heaps.min().is_none()
}

#[test]
fn pushes_go_to_the_first_heap_alone(rt: HostRuntime) {
    let mut heaps = heaps_of(&rt, rt.alloc(), 3, 2);
    assert!(rt; (heaps.count() == 3) & (heaps.len() == 0) & !heaps.is_full());
    takes(&rt, &mut heaps, &[5, 3]);
    assert!(rt; heaps.is_full() & (heaps.len() == 2));
    assert!(rt; heaps.try_push(pair(1)) == Err(pair(1)));
    assert!(rt;
        (heaps.share(0).len() == 2) & heaps.share(1).is_empty() & heaps.share(2).is_empty()
    );
    assert!(rt; has_least(&heaps, 3));
}

#[test]
fn pops_take_the_least_of_all_heaps(rt: HostRuntime) {
    let made = heaps_of(&rt, rt.alloc(), 3, 3);
    let two = put(&rt, put(&rt, made, 0, 7), 1, 9);
    let mut heaps = put(&rt, put(&rt, put(&rt, two, 2, 5), 1, 2), 0, 2);
    assert!(rt; (heaps.len() == 5) & gives(&mut heaps, &[2, 2, 5, 7, 9]));
}

#[test]
fn a_push_is_the_least_where_it_is_below_all_heaps(rt: HostRuntime) {
    let mut heaps = put(&rt, heaps_of(&rt, rt.alloc(), 2, 4), 1, 4);
    for (key, least) in [(6, 4), (1, 1), (9, 1)] {
        takes(&rt, &mut heaps, &[key]);
        assert!(rt; has_least(&heaps, least));
    }
    assert!(rt; gives(&mut heaps, &[1, 4, 6, 9]));
}

#[test]
fn a_share_is_sorted_and_emptied(rt: HostRuntime) {
    let made = heaps_of(&rt, rt.alloc(), 2, 3);
    let two = put(&rt, put(&rt, made, 1, 6), 1, 1);
    let mut heaps = put(&rt, put(&rt, two, 1, 3), 0, 4);
    heaps.sort_share(1);
    let sorted = [pair(1), pair(3), pair(6)];
    assert!(rt; (heaps.share(1) == sorted.as_slice()) & has_least(&heaps, 1));
    heaps.clear_share(1);
    assert!(rt; heaps.share(1).is_empty() & (heaps.len() == 1) & gives(&mut heaps, &[4]));
}

#[test]
fn parts_that_are_put_together_are_the_heaps(rt: HostRuntime) {
    let mut heaps = put(&rt, heaps_of(&rt, rt.alloc(), 2, 2), 1, 8);
    takes(&rt, &mut heaps, &[3]);
    let (parts, tree) = heaps.into_parts();
    assert!(rt; parts.len() == 2 && tree.leaves() == 2);
    assert!(rt; parts[0].as_slice() == [pair(3)].as_slice());
    let mut heaps = Heaps::from_parts(parts, tree);
    assert!(rt; gives(&mut heaps, &[3, 8]));
}

#[test]
fn one_heap_alone_gives_its_records_in_order(rt: HostRuntime) {
    let mut heaps = heaps_of(&rt, rt.alloc(), 1, 3);
    takes(&rt, &mut heaps, &[3, 1, 3]);
    assert!(rt; gives(&mut heaps, &[1, 3, 3]));
}
