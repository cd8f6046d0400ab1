//! Taking safe records.
ghost use Rattle.std.specs.Prelude.{◌≡◌, ◌+◌, ◌-◌, ◌<◌, ◌≤◌, ◌^◌, [], ◌++◌, length, map, take, All};
ghost use Rattle.std.specs.List.{AllByRecursion as Each};
ghost use Rattle.ppq_array.specs.ppq_record.Order.{Ascends};
ghost use Rattle.ppq_array.specs.ppq_record.Bag.{IsSameBag, front};
ghost use Rattle.ppq_array.specs.ppq_record.Runs.{all_of};
ghost use Rattle.ppq_array.specs.Run.{run_of, items_of, buffers_of};
ghost use Rattle.ppq_array.specs.External.{external};
ghost use Rattle.ppq_array.specs.Owner.{HasBlock};
ghost use Rattle.ppq_array.specs.Holdings.{internal_buffers, external_buffers, RunHasBlock};
ghost use Rattle.ppq_merge.specs.ppq_split.Cut.{AreWithin};
ghost use Rattle.ppq_merge.specs.Parts.{before, places_for};
ghost use Rattle.ppq_fetch.specs.Steps.{SameRoom, MayMergeParts, BuffersGiven, RunConsumed, RunsConsumed, ArrayConsumed, ArraysConsumed, AllConsumed, MergesSafe};
ghost use Rattle.ppq_fetch.specs.Fetching.{loaded_lists};

use crate::bench::Bench;
use crate::crew::Crew;
use crate::loaded::{Loaded, SafeParts};
use ppq_array::{
    BufList, ExternalArray, Gate, InternalArray, Listing, Record, Slot, Supply, give_buffer,
};
use std::thread::Threads;

// Merges the smallest of the safe records; `places` say which are safe, and become the places up to which
// they were taken.
pub(crate) fn merge_parts<H: Threads + Sync, S: Slot + Sync, R: Record + Send + Sync, G: Gate>(
    internal: &[InternalArray<R>],
    external: &[ExternalArray<S, R>],
    places: &mut [u64],
    bench: &mut Bench<R>,
    out: &mut [R],
    crew: &Crew<H, G>,
)
    requires may { MayMergeParts internal.now external.now places.old bench.old (length out.old) }
    ensures room { SameRoom out.old out.new places.old places.new bench.old bench.new }
    ensures hints { bench.new.hints ≡ bench.old.hints }
    ensures merged { MergesSafe R.Ord.cmp places.old (loaded_lists internal.now external.now) places.new out.new }
{
    let parts = SafeParts::new(internal, external, places);
    bench.merge(crew.rt, &parts, out, crew.gate);
    copy_cuts(bench, places);
}

// Copies the places up to which the last merge took the runs' records.
fn copy_cuts<R: Record>(bench: &Bench<R>, places: &mut [u64])
    requires long { length places.old ≤ length bench.now.places }
    requires few { length places.old < 2 ^ 32 }
    ensures { places.new ≡ take (length places.old) bench.now.places }
{
    for run in 0..places.len() {
        places[run] = bench.cut(run as u32);
    }
}

// Takes the first records of each run away, up to its place. The buffers that are spent go to the supply,
// and of runs in blocks they are idle.
pub(crate) fn consume_taken<S: Slot, R: Record, P: Supply<S, R>>(
    internal: &mut [InternalArray<R>],
    external: &mut [ExternalArray<S, R>],
    places: &[u64],
    idle: &mut BufList<R>,
    supply: &mut P,
)
    requires within { AreWithin places.now (loaded_lists internal.old external.old) }
    requires room { internal_buffers internal.old ≤ (P.stock supply.old).buffer_room }
    requires blocks { All (RunHasBlock (P.stock supply.old).block) internal.old }
    requires few { external_buffers external.old + length idle.old < 2 ^ 32 - 1 }
    ensures consumed { AllConsumed places.now internal.old internal.new external.old external.new idle.old idle.new (P.stock supply.old) (P.stock supply.new) }
    ensures home { P.home supply.new ≡ P.home supply.old }
{
    let (first, second) = places.split_at(internal.len());
    consume_internal(internal, first, supply);
    consume_external(external, second, idle);
}

// Takes the first records of each run away, up to its place; the buffers that are spent go to the supply.
fn consume_internal<S: Slot, R: Record, P: Supply<S, R>>(
    internal: &mut [InternalArray<R>],
    places: &[u64],
    supply: &mut P,
)
    requires within { AreWithin places.now (map items_of internal.old) }
    requires room { internal_buffers internal.old ≤ (P.stock supply.old).buffer_room }
    requires blocks { All (RunHasBlock (P.stock supply.old).block) internal.old }
    ensures consumed { RunsConsumed places.now internal.old internal.new (P.stock supply.old) (P.stock supply.new) }
    ensures home { P.home supply.new ≡ P.home supply.old }
{
    for i in 0..internal.len() {
        consume_run(&mut internal[i], places[i], supply);
    }
}

// Takes the first records of a run away; its buffers that are spent go to the supply.
fn consume_run<S: Slot, R: Record, P: Supply<S, R>>(
    run: &mut InternalArray<R>,
    place: u64,
    supply: &mut P,
)
    requires within { place ≤ length (items_of run.old) }
    requires room { length (buffers_of run.old) ≤ (P.stock supply.old).buffer_room }
    requires blocks { RunHasBlock (P.stock supply.old).block run.old }
    ensures consumed { RunConsumed place run.old run.new (P.stock supply.old) (P.stock supply.new) }
    ensures home { P.home supply.new ≡ P.home supply.old }
{
    run.consume(place);
    give_spent(run, supply);
}

// Gives the spent buffers of a run back.
fn give_spent<S: Slot, R: Record, P: Supply<S, R>>(run: &mut InternalArray<R>, supply: &mut P)
    requires room { length run.old.spent ≤ (P.stock supply.old).buffer_room }
    requires blocks { All (HasBlock (P.stock supply.old).block) run.old.spent }
    ensures run { run.new ≡ run_of run.old.live run.old.taken [] }
    ensures room { (P.stock supply.new).buffer_room + length run.old.spent ≡ (P.stock supply.old).buffer_room }
    ensures given { BuffersGiven (P.stock supply.old) (P.stock supply.new) }
    ensures home { P.home supply.new ≡ P.home supply.old }
{
    while let Some(buf) = run.take_spent() {
        give_buffer(supply, buf);
    }
}

// Takes the first loaded records of each run away, up to its place; the buffers that are spent are idle.
fn consume_external<S: Slot, R: Record>(
    external: &mut [ExternalArray<S, R>],
    places: &[u64],
    idle: &mut BufList<R>,
)
    requires within { AreWithin places.now (map (λ a. items_of a.loaded) external.old) }
    requires few { external_buffers external.old + length idle.old < 2 ^ 32 - 1 }
    ensures consumed { ArraysConsumed places.now external.old external.new idle.old idle.new }
{
    for i in 0..external.len() {
        consume_array(&mut external[i], places[i], idle);
    }
}

// Takes the first loaded records of a run away; its buffers that are spent are idle.
fn consume_array<S: Slot, R: Record>(
    array: &mut ExternalArray<S, R>,
    place: u64,
    idle: &mut BufList<R>,
)
    requires within { place ≤ length (items_of array.old.loaded) }
    requires few { length (buffers_of array.old.loaded) + length idle.old < 2 ^ 32 - 1 }
    ensures { ArrayConsumed place array.old array.new idle.old idle.new }
{
    array.consume(place);
    keep_spent(array, idle);
}

// The spent buffers of a run become idle.
fn keep_spent<S: Slot, R: Record>(array: &mut ExternalArray<S, R>, idle: &mut BufList<R>)
    requires few { length array.old.loaded.spent + length idle.old < 2 ^ 32 - 1 }
    ensures array { array.new ≡ external array.old.level (run_of array.old.loaded.live array.old.loaded.taken []) array.old.lifted array.old.stored }
    ensures idle { idle.new ≡ idle.old ++ array.old.loaded.spent }
{
    while let Some(buf) = array.take_spent() {
        idle.push_back(buf);
    }
}
