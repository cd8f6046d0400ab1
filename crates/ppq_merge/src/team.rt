//! What the workers of a merge share.

// The runtime that starts their threads, the runs that they merge, and the gate that each enters.
#[derive(Drop)]
pub(crate) struct Team<'a, H, Q, G> {
    pub(crate) rt: &'a H,
    pub(crate) runs: &'a Q,
    pub(crate) gate: &'a G,
}
