//! Worked examples of refills. A number stands for the pair with that key and value 0.
ghost use Rattle.std.specs.Prelude.{◌≡◌, ◌+◌, length, OnOk};
ghost use Rattle.ppq_extract.specs.ppq_budget.Sizes.{batch_of};
ghost use Rattle.ppq_extract.specs.ppq_fetch.Fetching.{MayFetch};
ghost use Rattle.ppq_extract.specs.Extracted.{sources_of, ServesFor};
ghost use Rattle.ppq_extract.specs.Examples.{IsRunOfTwo, IsRunOfBlock};
ghost use Rattle.ppq_array.specs.Holdings.{HasSlots};

use crate::quiet_slot::{QuietSlot, written_berth};
use ppq_array::{Berth, ExternalArray, InternalArray, OwnerLists, Runs, StoreFault};
use ppq_block::BlockBuf;
use ppq_extract::{Bench, Extract, Sizes, Sources};
use ppq_lane::Lanes;
use ppq_outside::{Host, OpenGate, Slot};
use ppq_record::Pair;
use ppq_testkit::pair;
use std::alloc::Global;
use std::process::Abort;

// What a refill needs, for two workers and blocks of two records.
#[derive(Drop)]
struct World {
    extract: Extract<Pair>,
    runs: Runs<QuietSlot, Pair>,
    lanes: Lanes<Berth<QuietSlot, Pair>, Pair>,
    sources: Sources<Pair>,
    owner: OwnerLists<QuietSlot, Pair>,
}

// A run of two records in a buffer.
fn run_of_two(rt: &impl Abort, alloc: Global, one: u64, other: u64) -> InternalArray<Pair>
    ensures { IsRunOfTwo result }
{
    let mut buf = BlockBuf::new(alloc, 2).expect(rt, "memory");
    buf.push(pair(one));
    buf.push(pair(other));
    let mut run = InternalArray::empty();
    run.add(buf);
    run
}

// A run of one block with number 4 that holds two records.
fn run_of_block<H: Host + Abort>(
    rt: &H,
    alloc: Global,
    one: u8,
    other: u8,
    broken: bool,
) -> ExternalArray<QuietSlot, Pair>
    ensures block { IsRunOfBlock ⟦<QuietSlot as Slot>⟧.shown result }
    ensures slots { HasSlots ⟦<QuietSlot as Slot>⟧.shown 32 result }
{
    let mut bytes = [0; 32];
    bytes[7] = one;
    bytes[23] = other;
    let berth = written_berth(rt, alloc, 4, &bytes, broken);
    let mut run = ExternalArray::empty(0);
    run.append(berth, pair(u64::from(one)), 2);
    run
}

fn sizes(rt: &impl Abort) -> Sizes
    ensures { batch_of result ≡ 4 }
{
    Sizes::new(2, 2, 1, 1 << 20, 3).expect(rt, "sizes")
}

// The runs 1 7 and 3 5 in buffers, and 2 9 in a block.
fn three_runs<H: Host + Abort>(rt: &H, alloc: Global, broken: bool) -> World
    ensures may { MayFetch ⟦<QuietSlot as Slot>⟧.shown 16 result.sources.bench.workers (sources_of result.runs result.lanes.idle result.owner) }
    ensures serves { ServesFor (length result.runs.internal.items + length result.runs.external.items) result.sources }
{
    let mut runs = Runs::new(alloc, 2, 1).expect(rt, "memory");
    let first = runs.internal.push(run_of_two(rt, alloc, 1, 7));
    first.expect(rt, "memory");
    let second = runs.internal.push(run_of_two(rt, alloc, 3, 5));
    second.expect(rt, "memory");
    let third = runs.external.push(run_of_block(rt, alloc, 2, 9, broken));
    third.expect(rt, "memory");
    World {
        extract: Extract::new(alloc, &sizes(rt)).expect(rt, "memory"),
        runs,
        lanes: Lanes::new(alloc, 3, 0, 2, 0).expect(rt, "memory"),
        sources: Sources {
            bench: Bench::new(alloc, 2, 3).expect(rt, "memory"),
            places: vec![in alloc; 0; 3].expect(rt, "memory"),
            second: Bench::new(alloc, 1, 8).expect(rt, "memory"),
        },
        owner: OwnerLists::new(2, 1, 2),
    }
}

// Empties the buffer and fills it.
fn refill<H: Host>(rt: &H, w: &mut World, below: Option<Pair>) -> Result<(), StoreFault>
where
    H::Dir: Send,
    requires may { MayFetch ⟦<QuietSlot as Slot>⟧.shown 16 w.old.sources.bench.workers (sources_of w.old.runs w.old.lanes.idle w.old.owner) }
    requires serves { ServesFor (length w.old.runs.internal.items + length w.old.runs.external.items) w.old.sources }
    ensures may { OnOk result (MayFetch ⟦<QuietSlot as Slot>⟧.shown 16 w.new.sources.bench.workers (sources_of w.new.runs w.new.lanes.idle w.new.owner)) }
    ensures serves { OnOk result (ServesFor (length w.new.runs.internal.items + length w.new.runs.external.items) w.new.sources) }
{
    w.extract.clear();
    w.extract.refill(
        rt,
        &mut w.runs,
        &mut w.lanes,
        &mut w.sources,
        &mut w.owner,
        below,
        &OpenGate,
    )
}

// Drops the world, which in place would be proved anew in each test.
fn end(_w: World) {}

// Whether a buffer has no record and gives none.
fn gives_none(extract: &mut Extract<Pair>) -> bool {
    let is_empty = extract.is_empty() & (extract.len() == 0) & extract.front().is_none();
    is_empty & extract.pop().is_none() & extract.rest().is_empty()
}

#[test]
fn a_new_buffer_is_empty(rt: HostRuntime) {
    let made = Extract::<Pair>::new(rt.alloc(), &sizes(&rt));
    assert!(rt; gives_none(&mut made.expect(&rt, "memory")));
}

// Whether a buffer with room for four records lends a list of two, has no room meanwhile, and has its room again
// once it took the list back.
fn lends_and_takes_back<H: Host + Abort>(rt: &H, alloc: Global)
where
    H::Dir: Send,
{
    let mut extract = Extract::new(alloc, &sizes(rt)).expect(rt, "memory");
    let mut list = extract.lend(2);
    list[1] = pair(8);
    assert!(rt; (list.len() == 2) & gives_none(&mut extract));
    extract.take_back(list, 4);
    let mut w = three_runs(rt, alloc, false);
    w.extract = extract;
    refill(rt, &mut w, None).expect(rt, "a refill");
    let four = [pair(1), pair(2), pair(3), pair(5)];
    assert!(rt; w.extract.rest() == four.as_slice());
    end(w);
}

#[test]
fn a_buffer_that_lent_its_list_is_refilled_whole(rt: HostRuntime) {
    lends_and_takes_back(&rt, rt.alloc());
}

// Whether so many runs are in buffers and in blocks, and so many slots are free.
fn has_runs(w: &World, internal: usize, external: usize, slots: u32) -> bool {
    let runs = (w.runs.internal.len() == internal) & (w.runs.external.len() == external);
    runs & (w.owner.free_slots() == slots)
}

// Whether a buffer of two records gives 7, and then 9 as the last one.
fn gives_last_two(extract: &mut Extract<Pair>) -> bool {
    let two = (extract.len() == 2) & (extract.front() == Some(pair(7)));
    let seven = extract.pop() == Some(pair(7));
    let nine = (extract.rest() == [pair(9)].as_slice()) & (extract.pop() == Some(pair(9)));
    two & seven & nine & extract.pop().is_none()
}

// Refills twice, and expects the smallest four records of all runs and then the other two.
fn refill_twice<H: Host + Abort>(rt: &H, alloc: Global)
where
    H::Dir: Send,
{
    let mut w = three_runs(rt, alloc, false);
    refill(rt, &mut w, None).expect(rt, "a refill");
    let four = [pair(1), pair(2), pair(3), pair(5)];
    // the run 3 5 is gone, and the slot of the block is free
    assert!(rt; (w.extract.rest() == four.as_slice()) & has_runs(&w, 1, 1, 1));
    refill(rt, &mut w, None).expect(rt, "a refill");
    let given = gives_last_two(&mut w.extract);
    assert!(rt; given & has_runs(&w, 0, 0, 1) & (w.owner.idle_buffers() == 2));
    end(w);
}

#[test]
fn a_refill_takes_the_least_records_of_all_runs(rt: HostRuntime) {
    refill_twice(&rt, rt.alloc());
}

// Refills with what is below 3, and expects that all runs stay.
fn refill_below<H: Host + Abort>(rt: &H, alloc: Global)
where
    H::Dir: Send,
{
    let mut w = three_runs(rt, alloc, false);
    refill(rt, &mut w, Some(pair(3))).expect(rt, "a refill");
    let two = w.extract.rest() == [pair(1), pair(2)].as_slice();
    assert!(rt; two & (w.runs.internal.len() == 2) & (w.runs.external.len() == 1));
    end(w);
}

#[test]
fn a_limit_gives_only_what_is_below_it(rt: HostRuntime) {
    refill_below(&rt, rt.alloc());
}

// Refills from a block that cannot be read, and expects its number.
fn refill_in_vain<H: Host + Abort>(rt: &H, alloc: Global)
where
    H::Dir: Send,
{
    let mut w = three_runs(rt, alloc, true);
    let named = refill(rt, &mut w, None) == Err(StoreFault::Device { number: 4 });
    assert!(rt; named & w.extract.is_empty() & (w.owner.free_slots() == 1));
    end(w);
}

#[test]
fn a_read_that_fails_is_answered_with_its_slot(rt: HostRuntime) {
    refill_in_vain(&rt, rt.alloc());
}
