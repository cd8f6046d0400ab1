//! Whoever executes a merge.

/// The runtime that starts the threads of a merge, and the gate that each enters.
#[derive(Drop)]
pub struct Crew<'a, H, G> {
    /// Starts the threads, and has the files of slots.
    pub rt: &'a H,
    /// Holds workers back in tests.
    pub gate: &'a G,
}
