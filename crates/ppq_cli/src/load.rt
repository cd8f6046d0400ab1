//! Why a script was not loaded, as an outcome.
ghost use Rattle.std.specs.Prelude.{◌≡◌};
ghost use Rattle.ppq_cli.specs.Load.{load_end};

use ppq_files::WholeFault;
use ppq_jobs::End;

/// The longest script, in bytes.
pub const LONGEST: u64 = 1_048_576;

/// A fault of loading as an end.
pub fn end_of(fault: WholeFault) -> End
    ensures { result ≡ load_end fault }
{
    match fault {
        WholeFault::Failed => End::ReadFault,
        WholeFault::Memory => End::Memory,
        WholeFault::Absent => End::NoScript,
        WholeFault::TooLong => End::ScriptTooLong,
        WholeFault::Ended { said, got } => End::FileChanged { line: 0, said, got },
    }
}
