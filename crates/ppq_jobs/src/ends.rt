//! Faults as ends.
ghost use Rattle.std.specs.Prelude.{◌≡◌};
ghost use Rattle.ppq_jobs.specs.Ending.{load_end, stop_end};
ghost use Rattle.ppq_jobs.specs.Sweeping.{swept_end};

use ppq_engine::{End, LoadFault, fault_end};
use ppq_event::SimFault;
use ppq_sweep::SweepFault;

// Why a record file of `said` bytes was not loaded, as an end.
pub(crate) fn unloaded(fault: LoadFault, said: u64) -> End
    ensures { result ≡ load_end said fault }
{
    match fault {
        LoadFault::Queue { fault } => fault_end(fault),
        LoadFault::Read => End::ReadFault,
        LoadFault::Memory => End::Memory,
        LoadFault::Ended { got } => End::FileChanged { line: 0, said, got },
    }
}

// Why a simulation stopped, as an end.
pub(crate) fn stopped(fault: SimFault) -> End
    ensures { result ≡ stop_end fault }
{
    match fault {
        SimFault::Write => End::WriteFault,
        SimFault::Queue(fault) => fault_end(fault),
    }
}

// Why a sweep stopped, as an end.
pub(crate) fn swept(fault: SweepFault) -> End
    ensures { result ≡ swept_end fault }
{
    match fault {
        SweepFault::Write => End::WriteFault,
        SweepFault::Queue(fault) => fault_end(fault),
    }
}
