//! What is done next.
ghost use Rattle.std.specs.Prelude.{◌≡◌, ◌+◌, ◌<◌, ◌≤◌, ◌^◌, ◌↔◌, length, Some, IsTrue};
ghost use Rattle.ppq_array.specs.Holdings.{external_buffers};
ghost use Rattle.ppq_fetch.specs.Fetching.{fronts_in};
ghost use Rattle.ppq_fetch.specs.Edges.{edge_of};
ghost use Rattle.ppq_fetch.specs.Hints.{AreHints};
ghost use Rattle.ppq_fetch.specs.Turns.{IsNext, IsTurn, minimum_of, rest_turn};

use crate::bench::Bench;
use crate::edge::Edge;
use ppq_array::{ExternalArray, Record, Slot};

// The first block of a run that is not loaded.
#[derive(Clone, Copy)]
pub(crate) struct NextBlock<R> {
    // Which run it is of.
    pub(crate) place: usize,
    // Its first record.
    pub(crate) minimum: R,
}

// What a turn does.
#[derive(Clone, Copy)]
pub(crate) enum Turn {
    // Nothing more: no record is within reach.
    End,
    // It loads the next block of this run.
    Load(usize),
    // It takes so many safe records.
    Take(u64),
}

// Of the blocks that are next in their runs, one with the smallest first record, as the hints say.
pub(crate) fn next_block<S: Slot, R: Record>(
    _external: &[ExternalArray<S, R>],
    bench: &Bench<R>,
) -> Option<NextBlock<R>>
    requires { AreHints R.record_of R.WIDTH S.shown _external.now bench.now.hints }
    ensures { IsNext R.Ord.cmp _external.now result }
{
    match bench.least_hint() {
        None => None,
        Some(least) => Some(NextBlock {
            place: least.0 as usize,
            minimum: least.1,
        }),
    }
}

// The first record of a block.
pub(crate) fn first_of<R: Record>(next: Option<NextBlock<R>>) -> Option<R>
    ensures { result ≡ minimum_of next }
{
    match next {
        None => None,
        Some(block) => Some(block.minimum),
    }
}

// Whether fewer than so many blocks are loaded beyond one a run that has something loaded.
pub(crate) fn has_room_ahead<S: Slot, R: Record>(
    external: &[ExternalArray<S, R>],
    ahead: u32,
) -> bool
    requires few { length external.now < 2 ^ 32 }
    requires few_buffers { external_buffers external.now < 2 ^ 32 }
    ensures { IsTrue result ↔ (external_buffers external.now < fronts_in external.now + ahead) }
{
    let mut buffers: u64 = 0;
    let mut fronts: u64 = 0;
    for array in external {
        buffers += u64::from(array.buffers());
        fronts += u64::from(array.loaded() > 0);
    }
    buffers < fronts + u64::from(ahead)
}

// What is to be done: as long as fewer safe records are loaded than are wanted, the next block is loaded,
// where there is a buffer for it. None if there is no buffer and no safe record, though a record is loaded
// of the run whose block is next; over slots that tell it never comes.
pub(crate) fn choose<S: Slot, R: Record>(
    external: &[ExternalArray<S, R>],
    next: Option<NextBlock<R>>,
    edge: Edge<R>,
    safe: u64,
    room: u64,
    ahead: u32,
) -> Option<Turn>
    requires next { IsNext R.Ord.cmp external.now next }
    requires edge { (u : _) → edge ≡ Edge.AtMost u → minimum_of next ≡ Some u }
    requires room { 0 < room }
    requires few { length external.now < 2 ^ 32 }
    requires few_buffers { external_buffers external.now < 2 ^ 32 }
    ensures { IsTurn external.now next edge safe room ahead result }
{
    if safe >= room {
        return Some(Turn::Take(room));
    }
    match edge {
        Edge::AtMost(_) => choose_load(external, next, edge, safe, room, ahead),
        _ => Some(choose_rest(safe)),
    }
}

// What is to be done where nothing can be loaded.
fn choose_rest(safe: u64) -> Turn
    ensures { result ≡ rest_turn safe }
{
    if safe == 0 {
        Turn::End
    } else {
        Turn::Take(safe)
    }
}

// Whether the next block is loaded.
fn choose_load<S: Slot, R: Record>(
    external: &[ExternalArray<S, R>],
    next: Option<NextBlock<R>>,
    edge: Edge<R>,
    safe: u64,
    room: u64,
    ahead: u32,
) -> Option<Turn>
    requires next { IsNext R.Ord.cmp external.now next }
    requires edge { (u : _) → edge ≡ Edge.AtMost u → minimum_of next ≡ Some u }
    requires near { (u : _) × (edge ≡ Edge.AtMost u) }
    requires few_safe { safe < room }
    requires few { length external.now < 2 ^ 32 }
    requires few_buffers { external_buffers external.now < 2 ^ 32 }
    ensures { IsTurn external.now next edge safe room ahead result }
{
    let Some(block) = next else { unreachable!() };
    let loaded = external[block.place].loaded();
    if loaded == 0 || has_room_ahead(external, ahead) {
        return Some(Turn::Load(block.place));
    }
    if safe == 0 {
        return None;
    }
    Some(Turn::Take(safe))
}
