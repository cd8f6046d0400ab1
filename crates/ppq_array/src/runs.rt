//! The runs of one owner.
ghost use Rattle.std.specs.Prelude.{◌≡◌, [], IfOk, vec_capacity};

use crate::external_array::ExternalArray;
use crate::internal_array::InternalArray;
use ppq_block::{Memory, Record};
use ppq_outside::Slot;
use std::alloc::Global;

/// The runs of one owner.
#[derive(Drop)]
pub struct Runs<S: Slot, R: Record> {
    /// Runs in buffers.
    pub internal: Vec<InternalArray<R>>,
    /// Runs in blocks.
    pub external: Vec<ExternalArray<S, R>>,
}

impl<S: Slot, R: Record> Runs<S, R> {
    /// No runs, with room for just so many in buffers and so many in blocks. `Err` only if an allocation
    /// failed.
    pub fn new(alloc: Global, internal: u32, external: u32) -> Result<Self, Memory>
        ensures no_internal { IfOk result (λ runs. runs.internal.items ≡ []) }
        ensures no_external { IfOk result (λ runs. runs.external.items ≡ []) }
        ensures internal_room { IfOk result (λ runs. vec_capacity runs.internal ≡ internal) }
        ensures external_room { IfOk result (λ runs. vec_capacity runs.external ≡ external) }
    {
        let internal = Vec::with_capacity(alloc, internal as usize)?;
        let external = Vec::with_capacity(alloc, external as usize)?;
        Ok(Runs { internal, external })
    }
}
