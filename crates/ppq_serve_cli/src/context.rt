//! What each step of the program is handed.
use std::alloc::Global;

// The runtime, the allocator, and the gate that the workers enter.
#[derive(Drop)]
pub struct Context<'a, H, G> {
    pub rt: &'a H,
    pub alloc: Global,
    pub gate: &'a G,
}
