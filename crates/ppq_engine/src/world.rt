//! What each command is handed.

use ppq_script::Form;
use std::alloc::Global;

/// What each command is handed beside the machine: the runtime, the allocator, the gate that each worker
/// enters, and the form in which answers are written.
#[derive(Drop)]
pub struct World<'a, H, G> {
    /// The runtime.
    pub rt: &'a H,
    /// The allocator, for the memory of sessions.
    pub alloc: Global,
    /// The gate that each worker enters.
    pub gate: &'a G,
    /// The form in which answers are written.
    pub form: Form,
}
