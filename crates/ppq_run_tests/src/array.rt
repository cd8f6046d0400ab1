//! Worked examples of runs. A number stands for the pair with that key and value 0.
ghost use Rattle.std.specs.Prelude.{◌<◌, ◌≤◌, length};

use ppq_array::InternalArray;
use ppq_block::BlockBuf;
use ppq_record::Pair;
use ppq_testkit::pair;
use std::alloc::Global;
use std::process::Abort;

// A buffer of two with these keys.
fn buffer_of(rt: &impl Abort, alloc: Global, one: u64, other: Option<u64>) -> BlockBuf<Pair>
    ensures { 0 < length result.items }
{
    let mut buf = BlockBuf::new(alloc, 2).expect(rt, "memory");
    buf.push(pair(one));
    if let Some(key) = other {
        buf.push(pair(key));
    }
    buf
}

// A run of three buffers, the second not full: 1 3, 4, 6 8.
fn three_buffers(rt: &impl Abort, alloc: Global) -> InternalArray<Pair> {
    let mut run = InternalArray::empty();
    for (one, other) in [(1, Some(3)), (4, None), (6, Some(8))] {
        assert!(rt; run.buffers() < 3);
        run.add(buffer_of(rt, alloc, one, other));
    }
    run
}

// Whether the record at this place is the pair with this key.
fn has_at(run: &InternalArray<Pair>, place: u64, key: u64) -> bool {
    (place < run.len()) && (run.at(place) == pair(key))
}

// Whether this run has the five records of `three_buffers`.
fn is_one_list(run: &InternalArray<Pair>) -> bool {
    let first = has_at(run, 0, 1) & has_at(run, 1, 3) & has_at(run, 2, 4);
    first & has_at(run, 3, 6) & has_at(run, 4, 8) & (run.len() == 5)
}

// How many records the next buffer has that is spent.
fn spent(run: &mut InternalArray<Pair>) -> Option<u32> {
    match run.take_spent() {
        Some(buf) => Some(buf.len()),
        None => None,
    }
}

// Consumes so many records of a run of this size, and says the key of the first one that is left.
fn first_after(rt: &impl Abort, run: &mut InternalArray<Pair>, size: u64, count: u64) -> Option<u64>
    requires { count ≤ size }
{
    assert!(rt; run.len() == size);
    run.consume(count);
    run.first().map(|r| r.key)
}

#[test]
fn an_empty_run_has_nothing_first_and_nothing_spent(rt: HostRuntime) {
    let mut run = InternalArray::<Pair>::empty();
    let is_empty = (run.len() == 0) & run.is_empty() & run.first().is_none();
    assert!(rt; is_empty & spent(&mut run).is_none());
}

#[test]
fn a_run_of_three_buffers_is_one_list(rt: HostRuntime) {
    let mut run = three_buffers(&rt, rt.alloc());
    let is_same = is_one_list(&run);
    run.straighten();
    assert!(rt; is_same & is_one_list(&run));
}

// Whether buffers of so many records are spent in turn, and then none.
fn spends(run: &mut InternalArray<Pair>, counts: &[u32]) -> bool {
    let mut is_same = true;
    for count in counts {
        is_same &= spent(run) == Some(*count);
    }
    is_same & spent(run).is_none()
}

#[test]
fn a_buffer_is_spent_once_its_last_record_is(rt: HostRuntime) {
    let mut run = three_buffers(&rt, rt.alloc());
    assert!(rt; (first_after(&rt, &mut run, 5, 1) == Some(3)) & spends(&mut run, &[]));
    assert!(rt; (first_after(&rt, &mut run, 4, 2) == Some(6)) & spends(&mut run, &[2, 1]));
    assert!(rt; has_at(&run, 1, 8) & (first_after(&rt, &mut run, 2, 1) == Some(8)));
}

#[test]
fn all_buffers_come_back_from_a_run_that_was_consumed(rt: HostRuntime) {
    let mut run = three_buffers(&rt, rt.alloc());
    run.consume(run.len());
    assert!(rt; run.is_empty() & run.first().is_none() & (run.buffers() == 3));
    for _ in 0..3 {
        assert!(rt; spent(&mut run).is_some());
    }
    assert!(rt; spent(&mut run).is_none() & (run.buffers() == 0));
}

// Puts the buffer of a number, with two pairs, behind fewer than 300.
fn add_two(rt: &impl Abort, alloc: Global, run: &mut InternalArray<Pair>, number: u64)
    requires { number < 300 }
{
    assert!(rt; run.buffers() < 300);
    run.add(buffer_of(rt, alloc, 2 * number, Some(2 * number + 1)));
}

// Whether the first record has this key. It is consumed.
fn reads(run: &mut InternalArray<Pair>, key: u64) -> bool {
    let is_first = run.first().map(|r| r.key) == Some(key);
    if run.len() > 0 {
        run.consume(1);
    }
    is_first
}

#[test]
fn a_long_run_is_read_in_order_while_it_grows(rt: HostRuntime) {
    let mut run = InternalArray::<Pair>::empty();
    let mut read = 0u64;
    for number in 0..300u64 {
        add_two(&rt, rt.alloc(), &mut run, number);
        for _ in 0..number % 3 {
            assert!(rt; reads(&mut run, read));
            read = read.saturating_add(1);
        }
    }
    assert!(rt; (read == 300) & (run.len() == 300));
}
