//! Insertion heaps of pairs.
use crate::pairs::pair;
use ppq_heap::InsertionHeap;
use ppq_record::Pair;
use std::alloc::Global;
use std::process::Abort;

// A heap with this room that took the pairs with these keys in turn.
fn heap_of(rt: &impl Abort, alloc: Global, room: u32, keys: &[u64]) -> InsertionHeap<Pair> {
    let mut heap = InsertionHeap::new(alloc, room).expect(rt, "memory");
    for key in keys {
        assert!(rt; heap.try_push(pair(*key)).is_ok());
    }
    heap
}

// Whether the heap takes the pairs with these keys behind its own.
fn appends(heap: &mut InsertionHeap<Pair>, keys: &[u64]) -> bool {
    let mut has_room = true;
    for key in keys {
        has_room &= heap.try_append(pair(*key)).is_ok();
    }
    has_room
}

// Whether pops give the pairs with these keys in turn, and then none.
fn gives(heap: &mut InsertionHeap<Pair>, keys: &[u64]) -> bool {
    let mut is_same = true;
    for key in keys {
        let item = Some(pair(*key));
        is_same &= (heap.min() == item) & (heap.pop() == item);
    }
    is_same & heap.pop().is_none() & heap.min().is_none() & heap.is_empty()
}

// Whether the heap is full and hands the record with this key back.
fn refuses(heap: &mut InsertionHeap<Pair>, key: u64) -> bool {
    heap.is_full() & (heap.try_push(pair(key)) == Err(pair(key)))
}

#[test]
fn a_full_heap_hands_the_record_back_and_pops_give_the_least(rt: HostRuntime) {
    let empty = heap_of(&rt, rt.alloc(), 2, &[]);
    assert!(rt; empty.is_empty() & (empty.cap() == 2));
    let mut heap = heap_of(&rt, rt.alloc(), 2, &[5, 3]);
    assert!(rt; (heap.len() == 2) & refuses(&mut heap, 4) & gives(&mut heap, &[3, 5]));
}

#[test]
fn a_sorted_heap_gives_its_front_away_and_is_used_on(rt: HostRuntime) {
    let mut heap = heap_of(&rt, rt.alloc(), 6, &[4, 1, 6, 3, 2]);
    heap.sort_in_place();
    let sorted = [pair(1), pair(2), pair(3), pair(4), pair(6)];
    assert!(rt; heap.as_slice() == sorted.as_slice());
    assert!(rt; heap.len() == 5);
    heap.take_front(2);
    assert!(rt; heap.try_push(pair(5)).is_ok() & gives(&mut heap, &[3, 4, 5, 6]));
}

#[test]
fn appended_records_are_popped_in_order(rt: HostRuntime) {
    let mut heap = heap_of(&rt, rt.alloc(), 5, &[4, 6]);
    assert!(rt; appends(&mut heap, &[5, 2]) & (heap.min() == Some(pair(2))));
    assert!(rt; heap.as_slice() == [pair(4), pair(6), pair(5), pair(2)].as_slice());
    assert!(rt; heap.pop() == Some(pair(2)));
    assert!(rt; appends(&mut heap, &[3]) & heap.try_push(pair(1)).is_ok());
    assert!(rt; heap.try_append(pair(7)) == Err(pair(7)));
    assert!(rt; gives(&mut heap, &[1, 3, 4, 5, 6]));
}

#[test]
fn a_heap_is_filled_by_appends_and_sorted(rt: HostRuntime) {
    let mut heap = heap_of(&rt, rt.alloc(), 4, &[]);
    assert!(rt; appends(&mut heap, &[3, 1, 4, 1]) & refuses(&mut heap, 5));
    heap.sort_in_place();
    assert!(rt; heap.as_slice() == [pair(1), pair(1), pair(3), pair(4)].as_slice());
    heap.take_front(1);
    assert!(rt; appends(&mut heap, &[0]) & gives(&mut heap, &[0, 1, 3, 4]));
}

#[test]
fn each_of_equal_records_is_kept(rt: HostRuntime) {
    let mut heap = heap_of(&rt, rt.alloc(), 4, &[7, 7, 2, 7]);
    assert!(rt; gives(&mut heap, &[2, 7, 7, 7]));
}

#[test]
fn a_heap_that_was_emptied_has_its_room(rt: HostRuntime) {
    let mut heap = heap_of(&rt, rt.alloc(), 1, &[9]);
    heap.clear();
    assert!(rt; heap.is_empty() & heap.try_push(pair(8)).is_ok());
}

#[test]
fn a_heap_of_no_records_is_full(rt: HostRuntime) {
    let mut heap = heap_of(&rt, rt.alloc(), 0, &[]);
    assert!(rt; refuses(&mut heap, 1) & gives(&mut heap, &[]));
}

// Whether one push or pop of the heap gives what the same gives on a list that is kept falling.
fn same_step(
    rt: &impl Abort,
    heap: &mut InsertionHeap<Pair>,
    list: &mut Vec<Pair>,
    draw: u64,
) -> bool {
    let item = pair(draw >> 58);
    if draw & 1 << 40 == 0 {
        return heap.pop() == list.pop();
    }
    if list.len() >= 16 {
        return heap.try_push(item) == Err(item);
    }
    list.push(item).expect(rt, "memory");
    list.sort_unstable();
    list.reverse();
    heap.try_push(item).is_ok()
}

#[test]
fn two_hundred_steps_agree_with_a_sorted_list(rt: HostRuntime) {
    let mut heap = heap_of(&rt, rt.alloc(), 16, &[]);
    let mut list = Vec::new(rt.alloc());
    let mut seed = 1u64;
    for _step in 0..200 {
        seed = seed
            .wrapping_mul(6364136223846793005)
            .wrapping_add(1442695040888963407);
        let is_same = same_step(&rt, &mut heap, &mut list, seed);
        let is_first = heap.min() == list.last().copied();
        assert!(rt; is_same & is_first & (heap.len() as usize == list.len()));
    }
}
