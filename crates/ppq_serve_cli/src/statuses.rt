//! The status of the process.
ghost use Rattle.std.specs.Prelude.{◌≡◌};
ghost use Rattle.ppq_serve_cli.specs.Status.{end_status, status_of};

use ppq_answer::{End, Outcome};

// The number of an end.
fn end_status(end: &End) -> u8
    ensures { result ≡ end_status end.now }
{
    match end {
        End::Done => 0,
        End::BadLine { .. } => 1,
        End::Usage => 2,
        End::ReadFault => 3,
        End::WriteFault => 4,
        End::DeviceFault { .. } => 5,
        End::NoFreeBlock => 6,
        End::BudgetTooSmall { .. } => 7,
        End::Memory => 8,
        End::FileChanged { .. } => 9,
        End::NoDevice => 10,
        End::NoScript => 11,
        End::ScriptTooLong => 12,
        End::BadAgenda => 13,
        End::BadEdge { .. } => 14,
    }
}

/// The number of an outcome, with which the program ends: 0 for `Done`, 1 for a bad request, and else the status that
/// `ppq` has for that end. 9 and 11 to 14 never come.
pub fn status(outcome: &Outcome) -> u8
    ensures { result ≡ status_of outcome.now }
{
    match outcome {
        Outcome::Ended { end } => end_status(end),
        Outcome::BadRequest { .. } => 1,
    }
}
