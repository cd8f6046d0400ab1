//! All that is allocated for a session.
ghost use Rattle.std.specs.Prelude.{◌≤◌, IfOk};
ghost use Rattle.ppq_pass.specs.ppq_budget.Sizes.{fixed_of};
ghost use Rattle.ppq_session.specs.Outfits.{AreStores};

use crate::Pass;
use crate::brought::Brought;
use crate::outfit::{Outfit, outfits};
use ppq_pass::{Berth, Memory, PoolBuf, Record, Sizes, Slot};
use std::alloc::Global;

/// All that is allocated for a session, beside its row and its pool. The lists are empty.
#[derive(Drop)]
pub struct Stores<S: Slot, R: Record> {
    /// For the free slots.
    pub slots: Vec<Berth<S, R>>,
    /// For the idle buffers.
    pub buffers: Vec<PoolBuf<R>>,
    /// One for each pass.
    pub outfits: Vec<Outfit<S, R>>,
    /// For the passes.
    pub passes: Vec<Pass<S, R>>,
    /// For what the passes bring to the end.
    pub brought: Vec<Brought<S, R>>,
}

/// Stores for so many free slots and idle buffers. `Err` only if an allocation failed.
pub fn make_stores<S: Slot, R: Record>(
    alloc: Global,
    sizes: &Sizes,
    slots: u32,
    buffers: u32,
) -> Result<Stores<S, R>, Memory>
    requires { fixed_of sizes.now ≤ sizes.now.memory }
    ensures { IfOk result (AreStores sizes.now slots buffers) }
{
    let Ok(pool) = sizes.pool() else {
        return Err(Memory);
    };
    let workers = sizes.workers() as usize;
    let outfits = outfits(alloc, sizes, pool, buffers)?;
    let slots = Vec::with_capacity(alloc, slots as usize)?;
    let buffers = Vec::with_capacity(alloc, buffers as usize)?;
    let passes = Vec::with_capacity(alloc, workers)?;
    let brought = Vec::with_capacity(alloc, workers)?;
    Ok(Stores {
        slots,
        buffers,
        outfits,
        passes,
        brought,
    })
}
