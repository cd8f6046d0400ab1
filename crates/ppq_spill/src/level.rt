//! Merging 8 arrays of a level into one of the next.
ghost use Rattle.std.specs.Prelude.{◌≡◌, ◌-◌, ◌^◌, ◌<◌, ◌≤◌, ℕ, [], length, take, drop, min, vec_capacity, All, OnOk, IfOk, IfErr, IfSome, IfNone, None, IsErrOf};
ghost use Rattle.ppq_fetch.specs.ppq_array.External.{External, size_of};
ghost use Rattle.ppq_fetch.specs.ppq_array.Kept.{Kept};
ghost use Rattle.ppq_fetch.specs.ppq_array.Holdings.{external_buffers};
ghost use Rattle.ppq_fetch.specs.Fetching.{state, count_in, MayFetch, AreSources, Fetched, PartsKept};
ghost use Rattle.ppq_spill.specs.Costing.{LevelPays};
ghost use Rattle.ppq_spill.specs.Moves.{DrewSlots, FoundFewSlots};
ghost use Rattle.ppq_spill.specs.Making.{table_of, last_eight, all_but_eight, MayMerge, SameTools, IsFaultOf, BatchMergeEnds, MergeEnds, LastEnds, HasNothing};
ghost use Rattle.ppq_spill.specs.Leveling.{held_in, count_level, MayLevel, AreOneSize, LanesStay, LevelCalls, LevelMerged, NoneForLevel, ArraysAscend, LevelFailed, LevelTells};

use crate::gathering::{count_buffers, gather_level};
use crate::groups::take_jobs;
use crate::making::write_batch;
use crate::new_array::NewArray;
use crate::slots::{draw_slots, free_slots};
use crate::turns::{goes_beside, merge_beside};
use ppq_budget::{FAN, LEVELS};
use ppq_fetch::{
    Bench, Berth, BerthList, Crew, ExternalArray, Gate, Host, InternalArray, Lanes, Record, Slot,
    StoreFault, Supply, record_laws, take_least,
};

// How many arrays are merged into one.
pub(crate) const TAKEN: usize = FAN as usize;

/// Merges 8 arrays of a level into one of the next level, and of level 7 into one of level 7. The new
/// array stands after the others, with nothing loaded. Where the 8 ascend, so does the new one.
///
/// As many slots as the 8 have loaded blocks are drawn before the first block is read or written. With
/// those and with the slots of the blocks that it reads it never wants another one. `workers` blocks are
/// read ahead, and the workers of the bench merge `workers * block` records at a time, which are then
/// written: by four workers or more, where these are 4,096 records or more and there is room for so many
/// jobs, on a thread of its own while the next ones are merged. Each block of the 8 that is not loaded is
/// read once, and of the blocks that are written all but the last are full. It does not allocate.
///
/// `Ok` only if no read and no write failed; a call that fails is not tried again.
///
/// `NoFreeBlock` only if a draw returned `None`, and the supply was sure of fewer slots than the 8 have
/// loaded blocks, which are at most 8 and one for each worker. No slot was called then, and nothing has
/// changed but the order of the arrays and the supply's counts and slots: slots that were drawn are kept
/// by the supply.
///
/// `Device` only if a read or write of the slot with that number failed. Records may be lost then, but no
/// slot and no buffer; what was written of the new array up to there stands after the others.
pub fn merge_level<
    H: Host,
    S: Slot + Send + Sync,
    R: Record + Send + Sync,
    P: Supply<S, R>,
    G: Gate,
>(
    rt: &H,
    arrays: &mut Vec<ExternalArray<S, R>>,
    level: u32,
    supply: &mut P,
    lanes: &mut Lanes<Berth<S, R>, R>,
    bench: &mut Bench<R>,
    gate: &G,
) -> Result<(), StoreFault>
where
    H::Dir: Send,
    requires level { level ≤ 7 }
    requires more { 8 < count_level level arrays.old.items }
    requires may { MayLevel S.shown R.WIDTH bench.old.workers arrays.old.items lanes.old (P.stock supply.old) }
    requires worker { 1 ≤ bench.old.workers }
    requires bench { 8 ≤ length bench.old.places }
    requires room { length arrays.old.items < vec_capacity arrays.old }
    requires ascend { ArraysAscend R.Ord.cmp R.record_of R.WIDTH S.shown arrays.old.items (P.stock supply.old) }
    ensures kept { Kept (P.stock supply.old) (P.stock supply.new) (held_in S.shown arrays.old.items lanes.old) (held_in S.shown arrays.new.items lanes.new) }
    ensures tells { LevelTells S.shown arrays.old.items arrays.new.items (P.stock supply.old) (P.stock supply.new) }
    ensures calls { LevelCalls S.shown level arrays.old.items arrays.new.items (P.stock supply.old) (P.stock supply.new) }
    ensures counted { LevelPays S.shown result arrays.old.items arrays.new.items (P.stock supply.old) (P.stock supply.new) }
    ensures home { P.home supply.new ≡ P.home supply.old }
    ensures merged { OnOk result (LevelMerged R.Ord.cmp R.record_of R.WIDTH S.shown level arrays.old.items arrays.new.items (P.stock supply.old) (P.stock supply.new)) }
    ensures none_free { IsErrOf result StoreFault.NoFreeBlock → NoneForLevel S.shown level bench.old.workers arrays.old.items arrays.new.items lanes.old lanes.new (P.stock supply.old) (P.stock supply.new) }
    ensures device { (number : ℕ) → IsErrOf result (StoreFault.Device number) → LevelFailed S.shown number arrays.new.items (P.stock supply.new) }
    ensures again { OnOk result (MayLevel S.shown R.WIDTH bench.new.workers arrays.new.items lanes.new (P.stock supply.new)) }
    ensures may_still { IsErrOf result StoreFault.NoFreeBlock → MayLevel S.shown R.WIDTH bench.new.workers arrays.new.items lanes.new (P.stock supply.new) }
    ensures size { AreOneSize S.shown R.WIDTH arrays.new.items lanes.new (P.stock supply.new) }
    ensures lanes { LanesStay lanes.old lanes.new }
    ensures idle { OnOk result (length lanes.old.idle ≤ length lanes.new.idle) }
    ensures rooms { vec_capacity arrays.new ≡ vec_capacity arrays.old }
    ensures workers { bench.new.workers ≡ bench.old.workers }
    ensures bench { length bench.new.places ≡ length bench.old.places }
{
    gather_level(arrays, level, TAKEN);
    let Some(berths) = draw_for_last(arrays, supply) else {
        return Err(StoreFault::NoFreeBlock);
    };
    let made = ExternalArray::empty((level + 1).min(LEVELS - 1));
    let making = NewArray { made, berths };
    match merge_last(&Crew { rt, gate }, arrays, making, supply, lanes, bench) {
        Ok(()) => Ok(()),
        Err(fault) => Err(fault),
    }
}

// Draws a slot for each loaded block of the last 8 arrays. None comes where fewer are had, and they all
// go back.
fn draw_for_last<S: Slot, R: Record, P: Supply<S, R>>(
    arrays: &Vec<ExternalArray<S, R>>,
    supply: &mut P,
) -> Option<BerthList<S, R>>
    requires eight { 8 ≤ length arrays.now.items }
    requires few { external_buffers arrays.now.items < 2 ^ 32 - 1 }
    ensures all { IfSome result (λ berths. length berths ≡ external_buffers (last_eight arrays.now.items)) }
    ensures drawn { IfSome result (DrewSlots S.shown R.WIDTH (P.stock supply.old) (P.stock supply.new)) }
    ensures few { IfNone result (FoundFewSlots (external_buffers (last_eight arrays.now.items)) (P.stock supply.old) (P.stock supply.new)) }
    ensures home { P.home supply.new ≡ P.home supply.old }
{
    let first = arrays.len() - TAKEN;
    let need = count_buffers(&arrays[first..]);
    draw_slots(supply, need)
}

// Merges the last 8 arrays into a new one, which replaces them, and gives back the slots that are left.
fn merge_last<H: Host, S: Slot + Send + Sync, R: Record + Send + Sync, P: Supply<S, R>, G: Gate>(
    crew: &Crew<H, G>,
    arrays: &mut Vec<ExternalArray<S, R>>,
    making: NewArray<S, R>,
    supply: &mut P,
    lanes: &mut Lanes<Berth<S, R>, R>,
    bench: &mut Bench<R>,
) -> Result<(), StoreFault>
where
    H::Dir: Send,
    requires eight { 8 ≤ length arrays.old.items }
    requires room { length arrays.old.items < vec_capacity arrays.old }
    requires may { MayMerge S.shown R.WIDTH bench.old.workers (length bench.old.places) (length lanes.old.batch.items) (table_of (last_eight arrays.old.items) lanes.old making (P.stock supply.old)) }
    ensures outcome { LastEnds R.Ord.cmp R.record_of R.WIDTH bench.old.workers S.shown (all_but_eight arrays.old.items) (table_of (last_eight arrays.old.items) lanes.old making (P.stock supply.old)) arrays.new.items lanes.new.idle (P.stock supply.new) result }
    ensures home { P.home supply.new ≡ P.home supply.old }
    ensures rooms { vec_capacity arrays.new ≡ vec_capacity arrays.old }
    ensures tools { SameTools lanes.old lanes.new bench.old.workers bench.new.workers (length bench.old.places) (length bench.new.places) }
{
    let first = arrays.len() - TAKEN;
    let mut making = making;
    match merge_behind(crew, arrays, &mut making, supply, lanes, bench) {
        Ok(()) => {
            let NewArray { made, berths } = making;
            free_slots(supply, berths);
            arrays.truncate(first);
            arrays.push_reserved(made);
            Ok(())
        }
        Err(fault) => {
            let NewArray { made, berths } = making;
            free_slots(supply, berths);
            arrays.push_reserved(made);
            Err(fault)
        }
    }
}

// Merges the last 8 arrays into a new one.
fn merge_behind<H: Host, S: Slot + Send + Sync, R: Record + Send + Sync, P: Supply<S, R>, G: Gate>(
    crew: &Crew<H, G>,
    arrays: &mut [ExternalArray<S, R>],
    making: &mut NewArray<S, R>,
    supply: &mut P,
    lanes: &mut Lanes<Berth<S, R>, R>,
    bench: &mut Bench<R>,
) -> Result<(), StoreFault>
where
    H::Dir: Send,
    requires eight { 8 ≤ length arrays.old }
    requires may { MayMerge S.shown R.WIDTH bench.old.workers (length bench.old.places) (length lanes.old.batch.items) (table_of (last_eight arrays.old) lanes.old making.old (P.stock supply.old)) }
    ensures others { take (length arrays.old - 8) arrays.new ≡ all_but_eight arrays.old }
    ensures outcome { MergeEnds R.Ord.cmp R.record_of R.WIDTH bench.old.workers S.shown (table_of (last_eight arrays.old) lanes.old making.old (P.stock supply.old)) (table_of (drop (length arrays.old - 8) arrays.new) lanes.new making.new (P.stock supply.new)) result }
    ensures home { P.home supply.new ≡ P.home supply.old }
    ensures tools { SameTools lanes.old lanes.new bench.old.workers bench.new.workers (length bench.old.places) (length bench.new.places) }
{
    let first = arrays.len() - TAKEN;
    merge_arrays(crew, &mut arrays[first..], making, supply, lanes, bench)
}

// Merges 8 arrays into a new one, until nothing is left of them. Where there are workers enough, a batch
// is written on a thread of its own while the next one is taken.
pub(crate) fn merge_arrays<
    H: Host,
    S: Slot + Send + Sync,
    R: Record + Send + Sync,
    P: Supply<S, R>,
    G: Gate,
>(
    crew: &Crew<H, G>,
    inputs: &mut [ExternalArray<S, R>],
    making: &mut NewArray<S, R>,
    supply: &mut P,
    lanes: &mut Lanes<Berth<S, R>, R>,
    bench: &mut Bench<R>,
) -> Result<(), StoreFault>
where
    H::Dir: Send,
    requires may { MayMerge S.shown R.WIDTH bench.old.workers (length bench.old.places) (length lanes.old.batch.items) (table_of inputs.old lanes.old making.old (P.stock supply.old)) }
    ensures outcome { MergeEnds R.Ord.cmp R.record_of R.WIDTH bench.old.workers S.shown (table_of inputs.old lanes.old making.old (P.stock supply.old)) (table_of inputs.new lanes.new making.new (P.stock supply.new)) result }
    ensures home { P.home supply.new ≡ P.home supply.old }
    ensures tools { SameTools lanes.old lanes.new bench.old.workers bench.new.workers (length bench.old.places) (length bench.new.places) }
{
    let slots = making.berths.len();
    if !goes_beside(
        bench.workers(),
        lanes.batch.len(),
        lanes.jobs.len(),
        lanes.jobs.capacity(),
        slots,
    ) {
        return merge_in_turn(crew, inputs, making, supply, lanes, bench);
    }
    let mut jobs = take_jobs(&mut lanes.jobs);
    let ended = merge_beside(crew, &mut jobs, inputs, making, supply, lanes, bench);
    lanes.jobs = jobs;
    ended
}

// Merges 8 arrays into a new one, until nothing is left of them, one batch after
// the other.
fn merge_in_turn<H: Host, S: Slot + Send + Sync, R: Record + Send + Sync, P: Supply<S, R>, G: Gate>(
    crew: &Crew<H, G>,
    inputs: &mut [ExternalArray<S, R>],
    making: &mut NewArray<S, R>,
    supply: &mut P,
    lanes: &mut Lanes<Berth<S, R>, R>,
    bench: &mut Bench<R>,
) -> Result<(), StoreFault>
where
    H::Dir: Send,
    requires may { MayMerge S.shown R.WIDTH bench.old.workers (length bench.old.places) (length lanes.old.batch.items) (table_of inputs.old lanes.old making.old (P.stock supply.old)) }
    ensures outcome { MergeEnds R.Ord.cmp R.record_of R.WIDTH bench.old.workers S.shown (table_of inputs.old lanes.old making.old (P.stock supply.old)) (table_of inputs.new lanes.new making.new (P.stock supply.new)) result }
    ensures home { P.home supply.new ≡ P.home supply.old }
    ensures tools { SameTools lanes.old lanes.new bench.old.workers bench.new.workers (length bench.old.places) (length bench.new.places) }
{
    let mut last = 1;
    while 0 < last {
        match merge_batch(crew, inputs, making, supply, lanes, bench) {
            Ok(count) => last = count,
            Err(fault) => return Err(fault),
        }
    }
    see_emptied(inputs);
    Ok(())
}

// Merges the smallest records of 8 arrays, a batch of them, and writes them as the next blocks of a new
// array. It returns how many they were.
fn merge_batch<H: Host, S: Slot + Send + Sync, R: Record + Send + Sync, P: Supply<S, R>, G: Gate>(
    crew: &Crew<H, G>,
    inputs: &mut [ExternalArray<S, R>],
    making: &mut NewArray<S, R>,
    supply: &mut P,
    lanes: &mut Lanes<Berth<S, R>, R>,
    bench: &mut Bench<R>,
) -> Result<usize, StoreFault>
where
    H::Dir: Send,
    requires may { MayMerge S.shown R.WIDTH bench.old.workers (length bench.old.places) (length lanes.old.batch.items) (table_of inputs.old lanes.old making.old (P.stock supply.old)) }
    ensures outcome { BatchMergeEnds R.Ord.cmp R.record_of R.WIDTH bench.old.workers S.shown (table_of inputs.old lanes.old making.old (P.stock supply.old)) (table_of inputs.new lanes.new making.new (P.stock supply.new)) result }
    ensures home { P.home supply.new ≡ P.home supply.old }
    ensures tools { SameTools lanes.old lanes.new bench.old.workers bench.new.workers (length bench.old.places) (length bench.new.places) }
{
    record_laws::<R>();
    match take_batch(crew, inputs, supply, lanes, bench) {
        Ok(count) => {
            let records = &lanes.batch[..count];
            match write_batch(crew.rt, supply, &mut lanes.idle, making, records) {
                Ok(()) => Ok(count),
                Err(fault) => Err(fault),
            }
        }
        Err(fault) => Err(fault),
    }
}

// Takes the smallest records of 8 arrays into the batch, as many as it has room for, or all there are. It
// returns how many.
pub(crate) fn take_batch<
    H: Host,
    S: Slot + Send + Sync,
    R: Record + Send + Sync,
    P: Supply<S, R>,
    G: Gate,
>(
    crew: &Crew<H, G>,
    inputs: &mut [ExternalArray<S, R>],
    supply: &mut P,
    lanes: &mut Lanes<Berth<S, R>, R>,
    bench: &mut Bench<R>,
) -> Result<usize, StoreFault>
where
    H::Dir: Send,
    requires eight { length inputs.old ≡ 8 }
    requires may { MayFetch S.shown R.WIDTH bench.old.workers (state [] inputs.old lanes.old.idle (P.stock supply.old)) }
    requires bench { 8 ≤ length bench.old.places }
    ensures within { IfOk result (λ count. count ≤ length lanes.new.batch.items) }
    ensures taken { IfOk result (λ count. Fetched R.Ord.cmp R.record_of R.WIDTH S.shown None (state [] inputs.old lanes.old.idle (P.stock supply.old)) (state [] inputs.new lanes.new.idle (P.stock supply.new)) (take count lanes.new.batch.items)) }
    ensures all { IfOk result (λ count. count ≡ min (length lanes.old.batch.items) (count_in [] inputs.old)) }
    ensures may { OnOk result (MayFetch S.shown R.WIDTH bench.old.workers (state [] inputs.new lanes.new.idle (P.stock supply.new))) }
    ensures sources { AreSources S.shown R.WIDTH bench.old.workers (state [] inputs.new lanes.new.idle (P.stock supply.new)) }
    ensures failed { IfErr result (λ fault. IsFaultOf (P.stock supply.new) fault) }
    ensures parts { IfErr result (λ _. PartsKept S.shown (state [] inputs.old lanes.old.idle (P.stock supply.old)) (state [] inputs.new lanes.new.idle (P.stock supply.new))) }
    ensures home { P.home supply.new ≡ P.home supply.old }
    ensures tools { SameTools lanes.old lanes.new bench.old.workers bench.new.workers (length bench.old.places) (length bench.new.places) }
{
    let mut internal: [InternalArray<R>; 0] = [];
    let mut places = [0; TAKEN];
    let ahead = bench.workers();
    take_least(
        crew.rt,
        &mut internal,
        inputs,
        &mut lanes.idle,
        &mut places,
        bench,
        supply,
        None,
        ahead,
        &mut lanes.batch,
        crew.gate,
    )
}

// Arrays that have no record have no slot and no buffer.
pub(crate) fn see_emptied<S: Slot, R: Record>(arrays: &[ExternalArray<S, R>])
    requires none { count_in [] arrays.now ≡ 0 }
    requires lifted { All (λ (a : External S R). a.lifted ≡ []) arrays.now }
    requires spent { All (λ (a : External S R). a.loaded.spent ≡ []) arrays.now }
    ensures { All HasNothing arrays.now }
{
    for array in arrays {
        see_one_emptied(array);
    }
}

// An array that has no record has no slot and no buffer.
fn see_one_emptied<S: Slot, R: Record>(array: &ExternalArray<S, R>)
    requires none { size_of array.now ≡ 0 }
    requires lifted { array.now.lifted ≡ [] }
    requires spent { array.now.loaded.spent ≡ [] }
    ensures { HasNothing array.now }
{
    let _loaded = array.loaded();
    let _next = array.next_minimum();
}
