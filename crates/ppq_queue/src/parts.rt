//! The parts of a queue that take memory once.
ghost use Rattle.std.specs.Prelude.{◌≡◌, ◌≤◌, IfOk};
ghost use Rattle.ppq_extract.specs.ppq_budget.Sizes.{fixed_of, pool_of};
ghost use Rattle.ppq_queue.specs.State.{AreNewParts, IsBareBody};

use crate::berths::make_buffers;
use crate::store::Store;
use ppq_extract::{Extract, Lanes, MOST_GROUP, MOST_RUNS, OwnerLists, Runs, Sizes, Slot, Sources};
use ppq_heap::{Heaps, Memory, MinTree, Record};
use ppq_spill::PassBody;
use std::alloc::Global;

// All parts of a queue but its list of slots.
#[derive(Drop)]
pub struct Parts<S: Slot + Send + Sync, R: Record + Send + Sync> {
    // An empty heap for each worker.
    pub heaps: Heaps<R>,
    // No runs and no record, the buffers of lanes and pool, and no slots yet.
    pub store: Store<S, R>,
}

impl<S: Slot + Send + Sync, R: Record + Send + Sync> Parts<S, R> {
    // The parts of a new queue of these sizes, with so many buffers in its pool. `Err` only for want of
    // memory.
    pub fn new(alloc: Global, sizes: &Sizes, buffers: u32) -> Result<Self, Memory>
        requires budget { fixed_of sizes.now ≤ sizes.now.memory }
        requires buffers { buffers ≡ pool_of sizes.now }
        ensures { IfOk result (AreNewParts sizes.now) }
    {
        let heaps = Heaps::new(alloc, sizes.workers(), sizes.heap_records())?;
        let body = new_body(alloc, sizes, buffers)?;
        let extract = Extract::new(alloc, sizes)?;
        let sources = Sources::new(alloc, sizes)?;
        let mut supply = OwnerLists::new(sizes.block(), sizes.blocks(), buffers);
        make_buffers(alloc, &mut supply, sizes.block(), buffers)?;
        let store = Store {
            sizes: *sizes,
            body,
            supply,
            extract,
            sources,
        };
        Ok(Parts { heaps, store })
    }
}

// A body with no runs, and the buffers of the lanes of a queue.
fn new_body<S: Slot, R: Record>(
    alloc: Global,
    sizes: &Sizes,
    buffers: u32,
) -> Result<PassBody<S, R>, Memory>
    requires { buffers ≤ 65536 }
    ensures { IfOk result (IsBareBody sizes.now buffers) }
{
    let workers = sizes.workers();
    let runs = Runs::new(alloc, buffers + 1, sizes.blocks() + MOST_RUNS + 2)?;
    let lanes = Lanes::new(
        alloc,
        sizes.lane_buffers(),
        MOST_GROUP + 3 * workers,
        sizes.block(),
        sizes.batch(),
    )?;
    let tree = MinTree::new(alloc, buffers + 1)?;
    Ok(PassBody { runs, lanes, tree })
}
