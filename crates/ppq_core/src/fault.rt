//! Why a step was refused.

/// The two refusals of a step.
#[derive(Clone, Copy, Debug, PartialEq, Eq)]
pub enum StepFault {
    /// The event is not legal after the history that the state shows.
    Illegal,
    /// The event is legal, and an allocation for its item failed.
    Memory,
}
