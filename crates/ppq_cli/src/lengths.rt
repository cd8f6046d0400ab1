//! Why a file of records has no length.
ghost use Rattle.std.specs.Prelude.{◌≡◌};
ghost use Rattle.ppq_cli.specs.Load.{length_end};

use ppq_files::LengthFault;
use ppq_jobs::End;

/// Why there is no length of a file of records, as an outcome: `no_records` if the file is not whole records, or has
/// too many of them.
pub fn end_of_length(fault: LengthFault, no_records: End) -> End
    ensures { result ≡ length_end no_records fault }
{
    match fault {
        LengthFault::Failed => End::ReadFault,
        LengthFault::Memory => End::Memory,
        LengthFault::Absent => End::NoScript,
        LengthFault::NoRecords => no_records,
    }
}
