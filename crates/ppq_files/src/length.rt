//! The length of a record file.
ghost use Rattle.std.specs.Prelude.{◌≡◌, Some, IfOk, IfErr};
ghost use Rattle.ppq_outside.specs.Told.{OfLength, RepliesOnly};
ghost use Rattle.ppq_files.specs.Reading.{LibraryKeeps, CountsBy};
ghost use Rattle.ppq_files.specs.Lengths.{IsRecordLength, is_record_length, IsLengthOf, LengthRefusalIsRight, LengthFaultAfter};

use crate::context::Context;
use ppq_outside::{Host, Library, OutsideFault};
use ppq_record::{Record, record_laws};

/// Why there is no length of a record file.
#[derive(Clone, Copy, Debug, PartialEq, Eq)]
pub enum LengthFault {
    /// The library failed.
    Failed,
    /// An allocation failed.
    Memory,
    /// There is no such file.
    Absent,
    /// It is not whole records, or it has more than 4,294,967,296 of them.
    NoRecords,
}

impl From<OutsideFault> for LengthFault {
    ghost use Rattle.std.specs.Prelude.{◌≡◌};
    ghost use Rattle.ppq_files.specs.Lengths.{length_fault_of};

    ghost from_gives = { λ fault given. given ≡ length_fault_of fault };

    fn from(fault: OutsideFault) -> LengthFault {
        match fault {
            OutsideFault::Failed => LengthFault::Failed,
            OutsideFault::Memory => LengthFault::Memory,
        }
    }
}

/// The length in bytes of a file of whole records, at most 4,294,967,296 of them. It costs one call of the
/// library, which is asked for the file's length and for nothing else.
pub fn record_length<R: Record, H: Host, L: Library>(
    context: &Context<H>,
    library: &mut L,
    name: &str,
) -> Result<u64, LengthFault>
    ensures found { IfOk result (λ length. L.replied library.new (OfLength name.now (Some length)) × IsRecordLength R.WIDTH length) }
    ensures refused { IfErr result (LengthRefusalIsRight R.WIDTH (L.replied library.new) name.now) }
    ensures library { LibraryKeeps L.told L.replied (IsLengthOf name.now) library.old library.new }
    ensures once { IfOk result (λ length. RepliesOnly (L.replied library.old) (L.replied library.new) (λ reply. reply ≡ OfLength name.now (Some length))) }
    ensures counts { CountsBy LengthFaultAfter (L.faults library.old) (L.faults library.new) result }
{
    match library.length(context.rt, context.alloc, name)? {
        None => Err(LengthFault::Absent),
        Some(length) => {
            if is_of_records::<R>(length) {
                Ok(length)
            } else {
                Err(LengthFault::NoRecords)
            }
        }
    }
}

// Whether a file of so many bytes is whole records, and at most 2^32 of them.
fn is_of_records<R: Record>(length: u64) -> bool
    ensures { result ≡ is_record_length R.WIDTH length }
{
    record_laws::<R>();
    let width = R::WIDTH as u64;
    length % width == 0 && length <= 4_294_967_296 * width
}
