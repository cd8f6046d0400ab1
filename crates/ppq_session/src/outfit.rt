//! What is allocated for a pass.
ghost use Rattle.std.specs.Prelude.{◌≡◌, ◌≤◌, ◌/◌, ◌+◌, length, All, IfOk};
ghost use Rattle.ppq_session.specs.Outfits.{IsOutfit};

use ppq_pass::{Lanes, Memory, MinTree, PassBody, Record, Runs, Sizes, Slot};
use std::alloc::Global;

/// What is allocated for a pass.
#[derive(Drop)]
pub struct Outfit<S: Slot, R: Record> {
    /// Lists of runs, lanes with no buffer yet, and a tree.
    pub body: PassBody<S, R>,
    /// An empty list for the numbers of buffers.
    pub numbers: Vec<u32>,
}

/// An outfit for each worker of a queue of these sizes, with `pool` buffers in its budget, of which
/// `buffers` are idle. `Err` only if an allocation failed.
pub fn outfits<S: Slot, R: Record>(
    alloc: Global,
    sizes: &Sizes,
    pool: u32,
    buffers: u32,
) -> Result<Vec<Outfit<S, R>>, Memory>
    requires { pool ≤ 65536 }
    ensures count { IfOk result (λ all. length all.items ≡ sizes.now.workers) }
    ensures each { IfOk result (λ all. All (IsOutfit (pool / sizes.now.heap + 1) (sizes.now.blocks / sizes.now.heap + 1) buffers) all.items) }
{
    let workers = sizes.workers();
    let mut all = Vec::with_capacity(alloc, workers as usize)?;
    'making: for _worker in 0..workers {
        all.push_reserved(make_outfit(alloc, sizes, pool, buffers)?);
    }
    Ok(all)
}

// One outfit. Each run has a heap of records at least, so there are at most so many.
fn make_outfit<S: Slot, R: Record>(
    alloc: Global,
    sizes: &Sizes,
    pool: u32,
    buffers: u32,
) -> Result<Outfit<S, R>, Memory>
    requires { pool ≤ 65536 }
    ensures { IfOk result (IsOutfit (pool / sizes.now.heap + 1) (sizes.now.blocks / sizes.now.heap + 1) buffers) }
{
    let heap = sizes.heap();
    let internal = pool / heap + 1;
    let runs = Runs::new(alloc, internal, sizes.blocks() / heap + 1)?;
    let lanes = Lanes::new(alloc, 0, 2, sizes.block(), 0)?;
    let tree = MinTree::new(alloc, internal + 1)?;
    let numbers = Vec::with_capacity(alloc, buffers as usize)?;
    Ok(Outfit {
        body: PassBody { runs, lanes, tree },
        numbers,
    })
}
