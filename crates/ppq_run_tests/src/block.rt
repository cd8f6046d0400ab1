//! Worked examples of buffers and queues of them. A number stands for the pair with that key and value 0.
ghost use Rattle.std.specs.Prelude.{◌≡◌, []};
ghost use Rattle.ppq_block.specs.Block.{holding};

use ppq_block::{BlockBuf, BufList};
use ppq_record::Pair;
use ppq_testkit::pair;
use std::alloc::Global;
use std::process::Abort;

// An empty buffer of two.
fn empty_buffer(rt: &impl Abort, alloc: Global) -> BlockBuf<Pair>
    ensures { result ≡ holding 2 [] }
{
    BlockBuf::new(alloc, 2).expect(rt, "memory")
}

// A buffer of two that holds one pair.
fn buffer_of(rt: &impl Abort, alloc: Global, key: u64) -> BlockBuf<Pair> {
    let mut buf = empty_buffer(rt, alloc);
    buf.push(pair(key));
    buf
}

// Puts a buffer that holds one pair behind fewer than so many.
fn add(rt: &impl Abort, alloc: Global, list: &mut BufList<Pair>, key: u64, room: u32) {
    let buf = buffer_of(rt, alloc, key);
    assert!(rt; list.len() < room);
    list.push_back(buf);
}

// Whether a buffer holds one pair, the one with this key.
fn has_key(buf: &BlockBuf<Pair>, key: u64) -> bool {
    (buf.len() == 1) && (buf.at(0) == pair(key))
}

// Whether the first buffer holds the pair with this key alone.
fn gives(list: &mut BufList<Pair>, key: u64) -> bool {
    match list.pop_front() {
        Some(buf) => has_key(&buf, key),
        None => false,
    }
}

#[test]
fn a_buffer_of_two_shows_its_pair_and_zeros(rt: HostRuntime) {
    let mut buf = empty_buffer(&rt, rt.alloc());
    buf.push(Pair { key: 5, value: 1 });
    let mut want = [0; 32];
    want[7] = 5;
    want[15] = 1;
    assert!(rt; (buf.bytes() == want.as_slice()) & (buf.len() == 1) & (buf.block() == 2));
}

#[test]
fn a_refill_takes_the_first_records_and_drops_the_rest(rt: HostRuntime) {
    let mut buf = empty_buffer(&rt, rt.alloc());
    let into = buf.bytes_mut();
    assert!(rt; into.len() == 32);
    into.fill(9);
    into[..16].copy_from_slice(&[0, 0, 0, 0, 0, 0, 1, 2, 0, 0, 0, 0, 0, 0, 0, 3]);
    buf.refill(1);
    assert!(rt; buf.len() == 1);
    let mut want = [0; 32];
    want[6] = 1;
    want[7] = 2;
    want[15] = 3;
    assert!(rt; (buf.at(0) == Pair { key: 258, value: 3 }) & (buf.bytes() == want.as_slice()));
}

#[test]
fn a_cleared_buffer_is_empty_and_all_zeros(rt: HostRuntime) {
    let mut buf = buffer_of(&rt, rt.alloc(), 7);
    for _ in 0..2 {
        buf.clear();
        assert!(rt; (buf.len() == 0) & (buf.bytes() == [0; 32].as_slice()));
        buf.bytes_mut().fill(255);
    }
}

// Whether a buffer holds these two records.
fn has_both(buf: &BlockBuf<Pair>, first: Pair, second: Pair) -> bool {
    (buf.len() == 2) && ((buf.at(0) == first) & (buf.at(1) == second))
}

#[test]
fn a_block_that_is_read_again_is_the_same_list(rt: HostRuntime) {
    let (first, second) = (Pair { key: 3, value: 9 }, Pair { key: 3, value: 2 });
    let mut written = empty_buffer(&rt, rt.alloc());
    written.push(first);
    written.push(second);
    let mut read = empty_buffer(&rt, rt.alloc());
    read.copy_from(&written);
    assert!(rt; has_both(&read, first, second));
}

// Whether the buffer with number 3 of five holds one pair, the one with this key.
fn has_fourth(list: &BufList<Pair>, key: u64) -> bool {
    if list.len() != 5 {
        return false;
    }
    let fourth = list.at(3);
    (fourth.len() == 1) && (fourth.at(0).key == key)
}

#[test]
fn a_queue_gives_five_buffers_in_the_order_they_came(rt: HostRuntime) {
    let mut list = BufList::<Pair>::empty();
    assert!(rt; list.is_empty());
    for key in [4, 2, 5, 1, 3] {
        add(&rt, rt.alloc(), &mut list, key, 5);
    }
    assert!(rt; has_fourth(&list, 1));
    for key in [4, 2, 5, 1, 3] {
        assert!(rt; gives(&mut list, key));
    }
    assert!(rt; list.pop_front().is_none() & list.is_empty());
}

#[test]
fn a_thousand_buffers_come_back_in_order_between_pushes(rt: HostRuntime) {
    let mut list = BufList::<Pair>::empty();
    for key in 0..1000u64 {
        add(&rt, rt.alloc(), &mut list, key, 1000);
        if key % 3 == 2 {
            assert!(rt; gives(&mut list, key / 3));
        }
    }
    list.straighten();
    assert!(rt; list.len() == 667);
    for key in 333..1000u64 {
        assert!(rt; gives(&mut list, key));
    }
    assert!(rt; list.is_empty());
}
