//! Why records were not loaded.
ghost use Rattle.std.specs.Prelude.{◌≡◌};
ghost use Rattle.ppq_load.specs.Loading.{loaded_of};

use ppq_files::FileFault;
use ppq_session::{BeginFault, QueueFault};

/// Why records were not loaded.
#[derive(Clone, Copy, Debug, PartialEq, Eq)]
pub enum LoadFault {
    /// The queue refused.
    Queue { fault: QueueFault },
    /// The library failed.
    Read,
    /// An allocation failed, for a session or for a read.
    Memory,
    /// The file ended at this byte, before the length that was said of it.
    Ended { got: u64 },
}

impl From<BeginFault> for LoadFault {
    ghost use Rattle.std.specs.Prelude.{◌≡◌};
    ghost use Rattle.ppq_load.specs.Loading.{begin_fault_of};

    ghost from_gives = { λ fault given. given ≡ begin_fault_of fault };

    fn from(fault: BeginFault) -> LoadFault {
        match fault {
            BeginFault::Memory => LoadFault::Memory,
            BeginFault::NoFreeBlock => LoadFault::Queue {
                fault: QueueFault::NoFreeBlock,
            },
            BeginFault::Device { number } => LoadFault::Queue {
                fault: QueueFault::Device { number },
            },
        }
    }
}

impl From<FileFault> for LoadFault {
    ghost use Rattle.std.specs.Prelude.{◌≡◌};
    ghost use Rattle.ppq_load.specs.Loading.{read_fault_of};

    ghost from_gives = { λ fault given. given ≡ read_fault_of fault };

    fn from(fault: FileFault) -> LoadFault {
        match fault {
            FileFault::Failed => LoadFault::Read,
            FileFault::Memory => LoadFault::Memory,
            FileFault::Ended { got } => LoadFault::Ended { got },
        }
    }
}

// How a session ended, as a result of a load.
pub(crate) fn loaded(ended: Result<(), QueueFault>) -> Result<(), LoadFault>
    ensures { result ≡ loaded_of ended }
{
    match ended {
        Ok(()) => Ok(()),
        Err(fault) => Err(LoadFault::Queue { fault }),
    }
}
