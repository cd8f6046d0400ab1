//! What each call of the outside is handed.

use ppq_outside::Host;
use std::alloc::Global;

/// The runtime and the allocator, which each call of the outside is handed.
#[derive(Drop)]
pub struct Context<'a, H: Host> {
    /// The runtime.
    pub rt: &'a H,
    /// The allocator.
    pub alloc: Global,
}
