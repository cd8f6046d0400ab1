//! Merging 16 arrays of a level into two of the next, 8 into one beside the other 8 into one.
ghost use Rattle.std.specs.Prelude.{◌≡◌, ◌+◌, ◌-◌, ◌*◌, ◌^◌, ◌<◌, ◌≤◌, ◌++◌, [], length, take, drop, All, vec_capacity};
ghost use Rattle.ppq_fetch.specs.ppq_array.Owner.{HasSlot, owner_home, slots_shown};
ghost use Rattle.ppq_spill.specs.Leveling.{count_level, MayLevel, LanesStay, ArraysAscend};
ghost use Rattle.ppq_spill.specs.Making.{table_of, MayMerge, MergeEnds, SameTools};
ghost use Rattle.ppq_spill.specs.Pairing.{MayPair, PairEnds, last_part, part_before, all_but_sixteen, ended, placed_pair, with_rest};

use crate::gathering::gather_level;
use crate::groups::put_back;
use crate::level::{TAKEN, merge_arrays};
use crate::new_array::NewArray;
use crate::slots::free_slots;
use ppq_budget::{FAN, LEVELS};
use ppq_fetch::{
    Bench, Berth, BerthList, BufList, Crew, ExternalArray, Gate, Host, Lanes, OwnerLists, Record,
    Slot, StoreFault, Supply, free_slot,
};
use std::mem::replace;
use std::thread::join_mut;

// How many buffers the second merge gets: two for its worker, and one for each of its arrays.
const LENT: u32 = FAN + 2;

/// Merges 16 arrays of a level into two of the next level, and of level 7 into two of level 7: 8 of them by
/// the workers of the bench, and the other 8 meanwhile on a thread of their own, by the one worker of another
/// bench. The new arrays stand after the others, with nothing loaded. It is as two calls of `merge_level`,
/// one after the other.
///
/// Nothing may be loaded, so no slot is drawn: each merge goes on with the slots of the blocks that it reads.
/// The second gets ten buffers of the lanes, and a batch of a block. It does not allocate. Where no thread can be
/// started, one merge is made after the other.
///
/// `Ok` only if no read and no write failed. `Device` only if a read or write of the slot with that number
/// failed; if calls of both merges failed, it names one of the first. Records may be lost then, but no slot
/// and no buffer. `NoFreeBlock` never comes.
pub fn merge_pair<
    H: Host,
    S: Slot + Send + Sync,
    R: Record + Send + Sync,
    P: Supply<S, R>,
    G: Gate,
>(
    rt: &H,
    arrays: &mut Vec<ExternalArray<S, R>>,
    level: u32,
    supply: &mut P,
    lanes: &mut Lanes<Berth<S, R>, R>,
    bench: &mut Bench<R>,
    other: &mut Bench<R>,
    batch: &mut Vec<R>,
    gate: &G,
) -> Result<(), StoreFault>
where
    H::Dir: Send,
    requires level { level ≤ 7 }
    requires more { 16 < count_level level arrays.old.items }
    requires may { MayLevel S.shown R.WIDTH bench.old.workers arrays.old.items lanes.old (P.stock supply.old) }
    requires pair { MayPair bench.old.workers arrays.old.items lanes.old (P.stock supply.old) }
    requires worker { 1 ≤ bench.old.workers }
    requires bench { 8 ≤ length bench.old.places }
    requires other { (other.old.workers ≡ 1) × (8 ≤ length other.old.places) }
    requires batch { length batch.old.items ≡ (P.stock supply.old).block }
    requires room { 1 + length arrays.old.items < vec_capacity arrays.old }
    requires ascend { ArraysAscend R.Ord.cmp R.record_of R.WIDTH S.shown arrays.old.items (P.stock supply.old) }
    ensures ends { PairEnds R.Ord.cmp R.record_of R.WIDTH S.shown level bench.old.workers result arrays.old.items arrays.new.items lanes.old lanes.new (P.stock supply.old) (P.stock supply.new) }
    ensures home { P.home supply.new ≡ P.home supply.old }
    ensures lanes { LanesStay lanes.old lanes.new }
    ensures rooms { vec_capacity arrays.new ≡ vec_capacity arrays.old }
    ensures workers { bench.new.workers ≡ bench.old.workers }
    ensures bench { length bench.new.places ≡ length bench.old.places }
    ensures other { (other.new.workers ≡ other.old.workers) × (length other.new.places ≡ length other.old.places) }
    ensures batch { (length batch.new.items ≡ length batch.old.items) × (vec_capacity batch.new ≡ vec_capacity batch.old) }
{
    gather_level(arrays, level, 2 * TAKEN);
    let block = lanes.idle.at(0).block();
    let next = (level + 1).min(LEVELS - 1);
    let mut first = NewArray {
        made: ExternalArray::empty(next),
        berths: BerthList::empty(),
    };
    let mut second = NewArray {
        made: ExternalArray::empty(next),
        berths: BerthList::empty(),
    };
    let mut aside = OwnerLists::new(block, u32::MAX - 1, 0);
    let mut lent = lend(lanes, batch);
    let crew = Crew { rt, gate };
    let (one, two) = merge_sixteen(
        &crew,
        arrays,
        &mut first,
        supply,
        lanes,
        bench,
        &mut second,
        &mut aside,
        &mut lent,
        other,
    );
    take_back(&mut lanes.idle, batch, lent);
    end_pair(arrays, supply, first, second, aside, one, two)
}

// Takes ten idle buffers and a batch for lanes of their own.
fn lend<S: Slot, R: Record>(
    lanes: &mut Lanes<Berth<S, R>, R>,
    batch: &mut Vec<R>,
) -> Lanes<Berth<S, R>, R>
    requires { 10 ≤ length lanes.old.idle }
    ensures idle { lanes.old.idle ≡ result.idle ++ lanes.new.idle }
    ensures ten { length result.idle ≡ 10 }
    ensures rest { lanes.new ≡ record lanes.old { idle = lanes.new.idle } }
    ensures jobs { result.jobs.items ≡ [] }
    ensures batch { result.batch ≡ batch.old }
{
    let mut idle = BufList::empty();
    while idle.len() < LENT {
        idle.push_back(lanes.idle.pop_front().unwrap());
    }
    let alloc = *batch.allocator();
    let batch = replace(batch, Vec::new(alloc));
    Lanes {
        idle,
        jobs: Vec::new(alloc),
        batch,
    }
}

// Takes buffers and batch of lanes back.
fn take_back<S: Slot, R: Record>(
    idle: &mut BufList<R>,
    batch: &mut Vec<R>,
    lent: Lanes<Berth<S, R>, R>,
)
    requires { length idle.old + length lent.idle < 2 ^ 32 - 1 }
    ensures idle { idle.new ≡ idle.old ++ lent.idle }
    ensures batch { batch.new ≡ lent.batch }
{
    let Lanes {
        idle: own,
        jobs: _,
        batch: list,
    } = lent;
    *batch = list;
    put_back(idle, own);
}

// Merges the last 8 arrays into a new one, and beside that the 8 before them into another.
fn merge_sixteen<H: Host, S: Slot + Send + Sync, R: Record + Send + Sync, P: Supply<S, R>, G: Gate>(
    crew: &Crew<H, G>,
    arrays: &mut [ExternalArray<S, R>],
    first: &mut NewArray<S, R>,
    supply: &mut P,
    lanes: &mut Lanes<Berth<S, R>, R>,
    bench: &mut Bench<R>,
    second: &mut NewArray<S, R>,
    aside: &mut OwnerLists<S, R>,
    lent: &mut Lanes<Berth<S, R>, R>,
    other: &mut Bench<R>,
) -> (Result<(), StoreFault>, Result<(), StoreFault>)
where
    H::Dir: Send,
    requires sixteen { 16 ≤ length arrays.old }
    requires one { MayMerge S.shown R.WIDTH bench.old.workers (length bench.old.places) (length lanes.old.batch.items) (table_of (last_part arrays.old) lanes.old first.old (P.stock supply.old)) }
    requires two { MayMerge S.shown R.WIDTH other.old.workers (length other.old.places) (length lent.old.batch.items) (table_of (part_before arrays.old) lent.old second.old aside.old) }
    ensures others { all_but_sixteen arrays.new ≡ all_but_sixteen arrays.old }
    ensures long { length arrays.new ≡ length arrays.old }
    ensures one { MergeEnds R.Ord.cmp R.record_of R.WIDTH bench.old.workers S.shown (table_of (last_part arrays.old) lanes.old first.old (P.stock supply.old)) (table_of (last_part arrays.new) lanes.new first.new (P.stock supply.new)) result.0 }
    ensures two { MergeEnds R.Ord.cmp R.record_of R.WIDTH other.old.workers S.shown (table_of (part_before arrays.old) lent.old second.old aside.old) (table_of (part_before arrays.new) lent.new second.new aside.new) result.1 }
    ensures home { P.home supply.new ≡ P.home supply.old }
    ensures aside_home { owner_home aside.new ≡ owner_home aside.old }
    ensures tools { SameTools lanes.old lanes.new bench.old.workers bench.new.workers (length bench.old.places) (length bench.new.places) }
    ensures other_tools { SameTools lent.old lent.new other.old.workers other.new.workers (length other.old.places) (length other.new.places) }
{
    let start = arrays.len() - 2 * TAKEN;
    merge_halves(
        crew,
        &mut arrays[start..],
        first,
        supply,
        lanes,
        bench,
        second,
        aside,
        lent,
        other,
    )
}

// Merges the last 8 of 16 arrays into a new one, and beside that the first 8 into another.
fn merge_halves<H: Host, S: Slot + Send + Sync, R: Record + Send + Sync, P: Supply<S, R>, G: Gate>(
    crew: &Crew<H, G>,
    sixteen: &mut [ExternalArray<S, R>],
    first: &mut NewArray<S, R>,
    supply: &mut P,
    lanes: &mut Lanes<Berth<S, R>, R>,
    bench: &mut Bench<R>,
    second: &mut NewArray<S, R>,
    aside: &mut OwnerLists<S, R>,
    lent: &mut Lanes<Berth<S, R>, R>,
    other: &mut Bench<R>,
) -> (Result<(), StoreFault>, Result<(), StoreFault>)
where
    H::Dir: Send,
    requires sixteen { length sixteen.old ≡ 16 }
    requires one { MayMerge S.shown R.WIDTH bench.old.workers (length bench.old.places) (length lanes.old.batch.items) (table_of (drop 8 sixteen.old) lanes.old first.old (P.stock supply.old)) }
    requires two { MayMerge S.shown R.WIDTH other.old.workers (length other.old.places) (length lent.old.batch.items) (table_of (take 8 sixteen.old) lent.old second.old aside.old) }
    ensures long { length sixteen.new ≡ 16 }
    ensures one { MergeEnds R.Ord.cmp R.record_of R.WIDTH bench.old.workers S.shown (table_of (drop 8 sixteen.old) lanes.old first.old (P.stock supply.old)) (table_of (drop 8 sixteen.new) lanes.new first.new (P.stock supply.new)) result.0 }
    ensures two { MergeEnds R.Ord.cmp R.record_of R.WIDTH other.old.workers S.shown (table_of (take 8 sixteen.old) lent.old second.old aside.old) (table_of (take 8 sixteen.new) lent.new second.new aside.new) result.1 }
    ensures home { P.home supply.new ≡ P.home supply.old }
    ensures aside_home { owner_home aside.new ≡ owner_home aside.old }
    ensures tools { SameTools lanes.old lanes.new bench.old.workers bench.new.workers (length bench.old.places) (length bench.new.places) }
    ensures other_tools { SameTools lent.old lent.new other.old.workers other.new.workers (length other.old.places) (length other.new.places) }
{
    let (low, high) = sixteen.split_at_mut(TAKEN);
    let below: Option<R> = None;
    merge_both(
        high, first, supply, lanes, bench, low, second, aside, lent, other, &below, crew,
    )
}

// Merges 8 arrays into a new one, and beside that 8 others into another. Its parameters stand in this order,
// and no record is one of them, since the borrow checker takes the closures so.
fn merge_both<H: Host, S: Slot + Send + Sync, R: Record + Send + Sync, P: Supply<S, R>, G: Gate>(
    inputs: &mut [ExternalArray<S, R>],
    first: &mut NewArray<S, R>,
    supply: &mut P,
    lanes: &mut Lanes<Berth<S, R>, R>,
    bench: &mut Bench<R>,
    beside: &mut [ExternalArray<S, R>],
    second: &mut NewArray<S, R>,
    aside: &mut OwnerLists<S, R>,
    lent: &mut Lanes<Berth<S, R>, R>,
    other: &mut Bench<R>,
    below: &Option<R>,
    crew: &Crew<H, G>,
) -> (Result<(), StoreFault>, Result<(), StoreFault>)
where
    H::Dir: Send,
    requires one { MayMerge S.shown R.WIDTH bench.old.workers (length bench.old.places) (length lanes.old.batch.items) (table_of inputs.old lanes.old first.old (P.stock supply.old)) }
    requires two { MayMerge S.shown R.WIDTH other.old.workers (length other.old.places) (length lent.old.batch.items) (table_of beside.old lent.old second.old aside.old) }
    ensures one { MergeEnds R.Ord.cmp R.record_of R.WIDTH bench.old.workers S.shown (table_of inputs.old lanes.old first.old (P.stock supply.old)) (table_of inputs.new lanes.new first.new (P.stock supply.new)) result.0 }
    ensures two { MergeEnds R.Ord.cmp R.record_of R.WIDTH other.old.workers S.shown (table_of beside.old lent.old second.old aside.old) (table_of beside.new lent.new second.new aside.new) result.1 }
    ensures home { P.home supply.new ≡ P.home supply.old }
    ensures aside_home { owner_home aside.new ≡ owner_home aside.old }
    ensures tools { SameTools lanes.old lanes.new bench.old.workers bench.new.workers (length bench.old.places) (length bench.new.places) }
    ensures other_tools { SameTools lent.old lent.new other.old.workers other.new.workers (length other.old.places) (length other.new.places) }
{
    let mut work = || -> Result<(), StoreFault>
        requires { MayMerge S.shown R.WIDTH bench.now.workers (length bench.now.places) (length lanes.now.batch.items) (table_of inputs.now lanes.now first.now (P.stock supply.now)) }
        ensures outcome { MergeEnds R.Ord.cmp R.record_of R.WIDTH bench.entry.now.workers S.shown (table_of inputs.entry.now lanes.entry.now first.entry.now (P.stock supply.entry.now)) (table_of inputs.exit.now lanes.exit.now first.exit.now (P.stock supply.exit.now)) result }
        ensures home { P.home supply.exit.now ≡ P.home supply.entry.now }
        ensures tools { SameTools lanes.entry.now lanes.exit.now bench.entry.now.workers bench.exit.now.workers (length bench.entry.now.places) (length bench.exit.now.places) }
    { merge_eight(inputs, first, supply, lanes, bench, below, crew) };
    merge_aside(beside, second, aside, lent, other, below, crew, &mut work)
}

// Merges 8 arrays into a new one. No limit is looked at.
fn merge_eight<H: Host, S: Slot + Send + Sync, R: Record + Send + Sync, P: Supply<S, R>, G: Gate>(
    inputs: &mut [ExternalArray<S, R>],
    making: &mut NewArray<S, R>,
    supply: &mut P,
    lanes: &mut Lanes<Berth<S, R>, R>,
    bench: &mut Bench<R>,
    _below: &Option<R>,
    crew: &Crew<H, G>,
) -> Result<(), StoreFault>
where
    H::Dir: Send,
    requires may { MayMerge S.shown R.WIDTH bench.old.workers (length bench.old.places) (length lanes.old.batch.items) (table_of inputs.old lanes.old making.old (P.stock supply.old)) }
    ensures outcome { MergeEnds R.Ord.cmp R.record_of R.WIDTH bench.old.workers S.shown (table_of inputs.old lanes.old making.old (P.stock supply.old)) (table_of inputs.new lanes.new making.new (P.stock supply.new)) result }
    ensures home { P.home supply.new ≡ P.home supply.old }
    ensures tools { SameTools lanes.old lanes.new bench.old.workers bench.new.workers (length bench.old.places) (length bench.new.places) }
{
    merge_arrays(crew, inputs, making, supply, lanes, bench)
}

// Merges 8 arrays into a new one on a thread of its own, and does other work meanwhile.
fn merge_aside<
    H: Host,
    S: Slot + Send + Sync,
    R: Record + Send + Sync,
    G: Gate,
    F: FnMut() -> A,
    A,
>(
    inputs: &mut [ExternalArray<S, R>],
    making: &mut NewArray<S, R>,
    aside: &mut OwnerLists<S, R>,
    lent: &mut Lanes<Berth<S, R>, R>,
    other: &mut Bench<R>,
    below: &Option<R>,
    crew: &Crew<H, G>,
    work: &mut F,
) -> (A, Result<(), StoreFault>)
where
    H::Dir: Send,
    requires may { MayMerge S.shown R.WIDTH other.old.workers (length other.old.places) (length lent.old.batch.items) (table_of inputs.old lent.old making.old aside.old) }
    requires work { F.pre work.old }
    ensures outcome { MergeEnds R.Ord.cmp R.record_of R.WIDTH other.old.workers S.shown (table_of inputs.old lent.old making.old aside.old) (table_of inputs.new lent.new making.new aside.new) result.1 }
    ensures home { owner_home aside.new ≡ owner_home aside.old }
    ensures tools { SameTools lent.old lent.new other.old.workers other.new.workers (length other.old.places) (length other.new.places) }
    ensures work { F.step work.old result.0 work.new }
{
    let mut merge = || -> Result<(), StoreFault>
        requires { MayMerge S.shown R.WIDTH other.now.workers (length other.now.places) (length lent.now.batch.items) (table_of inputs.now lent.now making.now aside.now) }
        ensures outcome { MergeEnds R.Ord.cmp R.record_of R.WIDTH other.entry.now.workers S.shown (table_of inputs.entry.now lent.entry.now making.entry.now aside.entry.now) (table_of inputs.exit.now lent.exit.now making.exit.now aside.exit.now) result }
        ensures home { owner_home aside.exit.now ≡ owner_home aside.entry.now }
        ensures tools { SameTools lent.entry.now lent.exit.now other.entry.now.workers other.exit.now.workers (length other.entry.now.places) (length other.exit.now.places) }
    { merge_eight(inputs, making, aside, lent, other, below, crew) };
    let (merged, given) = join_mut(crew.rt, &mut merge, work);
    (given, merged)
}

// Gives all slots of an owner's lists to a supply.
fn free_all<S: Slot, R: Record, P: Supply<S, R>>(supply: &mut P, aside: OwnerLists<S, R>)
    requires room { length aside.kept ≤ (P.stock supply.old).slot_room }
    requires block { aside.block ≡ (P.stock supply.old).block }
    ensures stock { P.stock supply.new ≡ record (P.stock supply.old) { kept = (P.stock supply.old).kept ++ aside.kept; slot_room = (P.stock supply.old).slot_room - length aside.kept } }
    ensures home { P.home supply.new ≡ P.home supply.old }
{
    let mut aside = aside;
    while aside.free_slots() > 0 {
        let berth = aside.draw_slot().unwrap();
        free_slot(supply, berth);
    }
}

// Puts two new arrays after the others, and gives back the slots that are left. Where both merges are done,
// nothing is left of the 16 arrays. It says how they ended together.
fn end_pair<S: Slot, R: Record, P: Supply<S, R>>(
    arrays: &mut Vec<ExternalArray<S, R>>,
    supply: &mut P,
    first: NewArray<S, R>,
    second: NewArray<S, R>,
    aside: OwnerLists<S, R>,
    one: Result<(), StoreFault>,
    two: Result<(), StoreFault>,
) -> Result<(), StoreFault>
    requires sixteen { 16 ≤ length arrays.old.items }
    requires room { 1 + length arrays.old.items < vec_capacity arrays.old }
    requires slots { length first.berths + length aside.kept + length second.berths ≤ (P.stock supply.old).slot_room }
    requires block { aside.block ≡ (P.stock supply.old).block }
    requires sizes { All (HasSlot S.shown ((P.stock supply.old).block * R.WIDTH)) (first.berths ++ second.berths) }
    ensures stock { P.stock supply.new ≡ with_rest (P.stock supply.old) (slots_shown S.shown first.berths) aside.kept (slots_shown S.shown second.berths) }
    ensures ended { result ≡ ended one two }
    ensures arrays { arrays.new.items ≡ placed_pair result arrays.old.items first.made second.made }
    ensures rooms { vec_capacity arrays.new ≡ vec_capacity arrays.old }
    ensures home { P.home supply.new ≡ P.home supply.old }
{
    let NewArray {
        made: low,
        berths: left,
    } = first;
    let NewArray { made: high, berths } = second;
    free_slots(supply, left);
    free_all(supply, aside);
    free_slots(supply, berths);
    let ended = end_of_both(one, two);
    if ended.is_ok() {
        let start = arrays.len() - 2 * TAKEN;
        arrays.truncate(start);
    }
    arrays.push_reserved(low);
    arrays.push_reserved(high);
    ended
}

// How two merges ended together: as the first that failed.
fn end_of_both(one: Result<(), StoreFault>, two: Result<(), StoreFault>) -> Result<(), StoreFault>
    ensures { result ≡ ended one two }
{
    match one {
        Ok(()) => two,
        Err(fault) => Err(fault),
    }
}
