//! What one owner of runs has.
ghost use Rattle.std.specs.Prelude.{◌≡◌, ◌+◌, ◌-◌, ◌^◌, ◌<◌, IfOk};
ghost use Rattle.ppq_spill.specs.Body.{IsNewBody};

use ppq_fetch::{Berth, Lanes, Memory, MinTree, Record, Runs, Slot};
use std::alloc::Global;

/// The runs of one owner, with the lanes and the tree that store and merge them.
#[derive(Drop)]
pub struct PassBody<S: Slot, R: Record> {
    /// The runs.
    pub runs: Runs<S, R>,
    /// The buffers that blocks are written from and read into.
    pub lanes: Lanes<Berth<S, R>, R>,
    /// A tree for merges of fewer runs than it has leaves.
    pub tree: MinTree<R>,
}

impl<S: Slot, R: Record> PassBody<S, R> {
    /// The body of a pass: no runs, with room for so many in buffers and so many in blocks; two buffers
    /// of `block` records each; and no batch. `Err` only if an allocation failed.
    pub fn new(alloc: Global, block: u32, internal: u32, external: u32) -> Result<Self, Memory>
        requires { internal < 2 ^ 32 - 1 }
        ensures { IfOk result (IsNewBody block internal external) }
    {
        let runs = Runs::new(alloc, internal, external)?;
        let lanes = Lanes::new(alloc, 2, 2, block, 0)?;
        let tree = MinTree::new(alloc, internal + 1)?;
        Ok(PassBody { runs, lanes, tree })
    }
}
