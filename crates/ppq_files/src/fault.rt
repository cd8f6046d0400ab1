//! Why bytes of a file were not read.
ghost use Rattle.std.specs.Prelude.{◌≡◌};

use ppq_outside::OutsideFault;

/// Why bytes of a file were not read.
#[derive(Clone, Copy, Debug, PartialEq, Eq)]
pub enum FileFault {
    /// The library failed.
    Failed,
    /// An allocation failed.
    Memory,
    /// A read returned nothing at this offset, which is before the end that was asked for.
    Ended { got: u64 },
}

impl From<OutsideFault> for FileFault {
    ghost use Rattle.std.specs.Prelude.{◌≡◌};
    ghost use Rattle.ppq_files.specs.Filling.{file_fault_of};

    ghost from_gives = { λ fault given. given ≡ file_fault_of fault };

    fn from(fault: OutsideFault) -> FileFault {
        match fault {
            OutsideFault::Failed => FileFault::Failed,
            OutsideFault::Memory => FileFault::Memory,
        }
    }
}
