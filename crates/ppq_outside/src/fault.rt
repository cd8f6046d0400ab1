//! What the calls of the outside answer where they fail.
ghost use Rattle.std.specs.Prelude.{◌≡◌};

use std::alloc::{AllocError, AllocFailed};

/// A call of the outside failed, and its count of faults rose.
#[derive(Clone, Copy, Debug, PartialEq, Eq)]
pub struct Failed;

/// Why a call of the outside that allocates returned nothing.
#[derive(Clone, Copy, Debug, PartialEq, Eq)]
pub enum OutsideFault {
    /// The call failed, and its count of faults rose.
    Failed,
    /// An allocation of the call failed.
    Memory,
}

impl From<AllocError> for OutsideFault {
    ghost use Rattle.ppq_outside.specs.declared.fault.OutsideFault.TheVariants.{Memory};

    ghost from_gives = { λ _ e. e ≡ Memory };

    fn from(_: AllocError) -> Self {
        OutsideFault::Memory
    }
}

impl<T: Drop> From<AllocFailed<T>> for OutsideFault {
    ghost use Rattle.ppq_outside.specs.declared.fault.OutsideFault.TheVariants.{Memory};

    ghost from_gives = { λ _ e. e ≡ Memory };

    fn from(_: AllocFailed<T>) -> Self {
        OutsideFault::Memory
    }
}
