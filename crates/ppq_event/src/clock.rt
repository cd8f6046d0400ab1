//! How far a run is.

// How far a run is.
#[derive(Clone, Copy)]
pub(crate) struct Clock {
    // The last time at which events are handled.
    pub(crate) until: u64,
    // How many events may be handled from now on.
    pub(crate) left: u64,
    // How many were handled.
    pub(crate) count: u64,
}
