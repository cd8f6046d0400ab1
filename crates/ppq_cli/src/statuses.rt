//! The status of the process.
ghost use Rattle.std.specs.Prelude.{◌≡◌};
ghost use Rattle.ppq_cli.specs.Status.{status_of};

use ppq_jobs::End;

/// The number of an outcome, with which the program ends: 0 for `Done`, else 1 to 14 in the order in
/// which `End` lists them.
pub fn status(end: &End) -> u8
    ensures { result ≡ status_of end.now }
{
    match end {
        End::Done => 0,
        End::BadLine { .. } => 1,
        End::Usage => 2,
        End::ReadFault => 3,
        End::WriteFault => 4,
        End::DeviceFault { .. } => 5,
        End::NoFreeBlock => 6,
        End::BudgetTooSmall { .. } => 7,
        End::Memory => 8,
        End::FileChanged { .. } => 9,
        End::NoDevice => 10,
        End::NoScript => 11,
        End::ScriptTooLong => 12,
        End::BadAgenda => 13,
        End::BadEdge { .. } => 14,
    }
}
