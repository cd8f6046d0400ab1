//! Passes that are put into the parts of a queue.
ghost use Rattle.std.specs.Prelude.{◌≡◌, ◌≤◌, ◌<◌, ◌+◌, ◌-◌, ◌*◌, ◌^◌, [], ◌∷◌, length, map, reverse, All};
ghost use Rattle.ppq_pass.specs.ppq_array.Owner.{slots_shown};
ghost use Rattle.ppq_pass.specs.ppq_array.Holdings.{HasSlots, internal_buffers, external_buffers, external_slots};
ghost use Rattle.ppq_pass.specs.ppq_array.Run.{buffers_of};
ghost use Rattle.ppq_session.specs.Ends.{first_some};
ghost use Rattle.ppq_session.specs.Gathering.{Adopted, CanAdopt, GetsBack, MayGather, Gathers};

use crate::brought::Brought;
use crate::closed::Closed;
use crate::moving::{free_all, move_all, move_buffers};
use ppq_pass::{
    BufList, ExternalArray, InternalArray, OwnerLists, PassBody, Record, Slot, free_slot,
};
use ppq_queue::Counts;

/// The number of the slot that failed first in the first pass that met a fault, and else `other`. The first
/// pass stands last.
pub fn first_fault<S: Slot + Send + Sync, R: Record + Send + Sync>(
    brought: &[Brought<S, R>],
    other: Option<u32>,
) -> Option<u32>
    ensures { result ≡ first_some (map (λ one. one.failed) (reverse brought.now)) other }
{
    let mut first = other;
    for one in brought {
        first = one.failed.or(first);
    }
    first
}

/// Puts all passes that came back into the parts of the queue.
pub fn gather_all<S: Slot + Send + Sync, R: Record + Send + Sync>(
    c: &mut Closed<S, R>,
    brought: Vec<Brought<S, R>>,
)
    requires { MayGather S.shown R.Ord.cmp R.record_of R.WIDTH brought.items c.old }
    ensures { Gathers S.shown R.Ord.cmp R.record_of R.WIDTH brought.items c.old c.new }
{
    let mut brought = brought;
    'gathering: while let Some(one) = brought.pop() {
        gather(c, one);
    }
}

// Puts a pass into the parts of the queue.
fn gather<S: Slot + Send + Sync, R: Record + Send + Sync>(c: &mut Closed<S, R>, one: Brought<S, R>)
    requires { MayGather S.shown R.Ord.cmp R.record_of R.WIDTH (one ∷ []) c.old }
    ensures { Gathers S.shown R.Ord.cmp R.record_of R.WIDTH (one ∷ []) c.old c.new }
{
    let Brought {
        heap,
        body,
        stash,
        accepted,
        stores,
        failed,
        ..
    } = one;
    c.heaps.push_reserved(heap);
    free_all(&mut c.supply, stash);
    c.count = c.count.saturating_add(accepted);
    c.counts.join(Counts::of_pass(accepted, stores));
    c.failed = c.failed.or(failed);
    match c.failed {
        None => adopt(&mut c.body, body),
        Some(_) => dissolve(body, &mut c.body.lanes.idle, &mut c.supply),
    }
}

// Moves the runs and the idle buffers of a body to another.
fn adopt<S: Slot + Send + Sync, R: Record + Send + Sync>(
    to: &mut PassBody<S, R>,
    from: PassBody<S, R>,
)
    requires { CanAdopt to.old from }
    ensures { Adopted to.old from to.new }
{
    let PassBody { runs, lanes, .. } = from;
    move_all(runs.internal, &mut to.runs.internal);
    move_all(runs.external, &mut to.runs.external);
    move_buffers(lanes.idle, &mut to.lanes.idle);
}

// Takes a body without jobs apart: its slots go to a supply, and its buffers to a list.
fn dissolve<S: Slot + Send + Sync, R: Record + Send + Sync>(
    body: PassBody<S, R>,
    idle: &mut BufList<R>,
    supply: &mut OwnerLists<S, R>,
)
    requires room { length (external_slots S.shown body.runs.external.items) ≤ supply.old.slot_room }
    requires sizes { All (HasSlots S.shown (supply.old.block * R.WIDTH)) body.runs.external.items }
    requires few { length idle.old + internal_buffers body.runs.internal.items + external_buffers body.runs.external.items + length body.lanes.idle < 2 ^ 32 - 1 }
    ensures back { GetsBack (external_slots S.shown body.runs.external.items) supply.old supply.new }
    ensures idle { length idle.new ≡ length idle.old + internal_buffers body.runs.internal.items + external_buffers body.runs.external.items + length body.lanes.idle }
{
    let PassBody { runs, lanes, .. } = body;
    empty_runs(runs.internal, idle);
    empty_arrays(runs.external, idle, supply);
    move_buffers(lanes.idle, idle);
}

// Takes runs in buffers apart: their buffers go to a list.
fn empty_runs<R: Record>(runs: Vec<InternalArray<R>>, idle: &mut BufList<R>)
    requires { length idle.old + internal_buffers runs.items < 2 ^ 32 - 1 }
    ensures { length idle.new ≡ length idle.old + internal_buffers runs.items }
{
    let mut runs = runs;
    'emptying: while let Some(run) = runs.pop() {
        empty_run(run, idle);
    }
}

// Takes a run in buffers apart: its buffers go to a list.
fn empty_run<R: Record>(run: InternalArray<R>, idle: &mut BufList<R>)
    requires { length idle.old + length (buffers_of run) < 2 ^ 32 - 1 }
    ensures { length idle.new ≡ length idle.old + length (buffers_of run) }
{
    let mut run = run;
    let count = run.len();
    run.consume(count);
    'emptying: while let Some(buf) = run.take_spent() {
        idle.push_back(buf);
    }
}

// Takes runs in blocks apart: their slots go to a supply, and their buffers to a list.
fn empty_arrays<S: Slot + Send + Sync, R: Record + Send + Sync>(
    arrays: Vec<ExternalArray<S, R>>,
    idle: &mut BufList<R>,
    supply: &mut OwnerLists<S, R>,
)
    requires room { length (external_slots S.shown arrays.items) ≤ supply.old.slot_room }
    requires sizes { All (HasSlots S.shown (supply.old.block * R.WIDTH)) arrays.items }
    requires few { length idle.old + external_buffers arrays.items < 2 ^ 32 - 1 }
    ensures back { GetsBack (external_slots S.shown arrays.items) supply.old supply.new }
    ensures idle { length idle.new ≡ length idle.old + external_buffers arrays.items }
{
    let mut arrays = arrays;
    'emptying: while let Some(array) = arrays.pop() {
        empty_array(array, idle, supply);
    }
}

// Takes a run in blocks apart: its slots go to a supply, and its buffers to a list.
fn empty_array<S: Slot + Send + Sync, R: Record + Send + Sync>(
    array: ExternalArray<S, R>,
    idle: &mut BufList<R>,
    supply: &mut OwnerLists<S, R>,
)
    requires room { length array.stored ≤ supply.old.slot_room }
    requires sizes { HasSlots S.shown (supply.old.block * R.WIDTH) array }
    requires few { length idle.old + length (buffers_of array.loaded) < 2 ^ 32 - 1 }
    ensures back { GetsBack (slots_shown S.shown array.stored) supply.old supply.new }
    ensures idle { length idle.new ≡ length idle.old + length (buffers_of array.loaded) }
{
    let array = empty_loaded(array, idle);
    free_stored(array, supply);
}

// Moves the buffers of a run in blocks to a list.
fn empty_loaded<S: Slot, R: Record>(
    array: ExternalArray<S, R>,
    idle: &mut BufList<R>,
) -> ExternalArray<S, R>
    requires { length idle.old + length (buffers_of array.loaded) < 2 ^ 32 - 1 }
    ensures idle { length idle.new ≡ length idle.old + length (buffers_of array.loaded) }
    ensures stored { result.stored ≡ array.stored }
{
    let mut array = array;
    let count = array.loaded();
    array.consume(count);
    'emptying: while let Some(buf) = array.take_spent() {
        idle.push_back(buf);
    }
    array
}

// Puts the slots of a run in blocks into a supply.
fn free_stored<S: Slot, R: Record>(array: ExternalArray<S, R>, supply: &mut OwnerLists<S, R>)
    requires room { length array.stored ≤ supply.old.slot_room }
    requires sizes { HasSlots S.shown (supply.old.block * R.WIDTH) array }
    ensures { GetsBack (slots_shown S.shown array.stored) supply.old supply.new }
{
    let mut array = array;
    'freeing: while let Some(berth) = array.give_up() {
        free_slot(supply, berth);
    }
}
