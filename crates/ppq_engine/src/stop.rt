//! Why commands did not all run.
use ppq_load::{BeginFault, QueueFault};
use ppq_script::Failed;

/// Why commands did not all run: what stopped the first that did not run to its end.
#[derive(Clone, Copy, Debug, PartialEq, Eq)]
pub enum Stop {
    /// The sink failed.
    Sink,
    /// The queue did not do a command: no block was free, or one failed.
    Queue { fault: QueueFault },
    /// The library failed.
    Read,
    /// An allocation for a session or a read failed.
    Memory,
    /// The file of a command on this line ended at `got`, before the length `said` that it had, both in bytes.
    Changed { line: u32, said: u64, got: u64 },
}

impl From<Failed> for Stop {
    ghost use Rattle.std.specs.Prelude.{◌≡◌};
    ghost use Rattle.ppq_engine.specs.declared.stop.Stop.TheVariants.{Sink};

    ghost from_gives = { λ _ given. given ≡ Sink };

    fn from(_: Failed) -> Stop {
        Stop::Sink
    }
}

impl From<QueueFault> for Stop {
    ghost use Rattle.std.specs.Prelude.{◌≡◌};
    ghost use Rattle.ppq_engine.specs.declared.stop.Stop.TheVariants.{Queue};

    ghost from_gives = { λ fault given. given ≡ Queue fault };

    fn from(fault: QueueFault) -> Stop {
        Stop::Queue { fault }
    }
}

impl From<BeginFault> for Stop {
    ghost use Rattle.std.specs.Prelude.{◌≡◌};
    ghost use Rattle.ppq_engine.specs.Files.{begin_stop};

    ghost from_gives = { λ fault given. given ≡ begin_stop fault };

    fn from(fault: BeginFault) -> Stop {
        match fault {
            BeginFault::Memory => Stop::Memory,
            BeginFault::NoFreeBlock => Stop::Queue {
                fault: QueueFault::NoFreeBlock,
            },
            BeginFault::Device { number } => Stop::Queue {
                fault: QueueFault::Device { number },
            },
        }
    }
}
