//! A file that is read whole.
ghost use Rattle.std.specs.Prelude.{◌≡◌, ◌≤◌, ◌^◌, IfOk, IfErr};
ghost use Rattle.ppq_files.specs.Reading.{IsOn, LibraryKeeps, CountsBy};
ghost use Rattle.ppq_files.specs.Whole.{IsFewBytes, IsLoadedAs, WholeRefusalIsRight, WholeRefusalIsTrue, WholeFaultAfter, fault_within};

use crate::context::Context;
use crate::fault::FileFault;
use crate::fill::fill;
use ppq_outside::{Host, Library, OutsideFault};

/// Why a file was not read whole.
#[derive(Clone, Copy, Debug, PartialEq, Eq)]
pub enum WholeFault {
    /// The library failed.
    Failed,
    /// An allocation failed.
    Memory,
    /// There is no such file.
    Absent,
    /// It has too many bytes.
    TooLong,
    /// The library said a length, and a read at `got`, which is before that, returned nothing.
    Ended { said: u64, got: u64 },
}

impl From<OutsideFault> for WholeFault {
    ghost use Rattle.std.specs.Prelude.{◌≡◌};
    ghost use Rattle.ppq_files.specs.Whole.{whole_fault_of};

    ghost from_gives = { λ fault given. given ≡ whole_fault_of fault };

    fn from(fault: OutsideFault) -> WholeFault {
        match fault {
            OutsideFault::Failed => WholeFault::Failed,
            OutsideFault::Memory => WholeFault::Memory,
        }
    }
}

// A fault of reading a file of so many bytes.
fn fault_of(fault: FileFault, said: u64) -> WholeFault
    ensures { result ≡ fault_within said fault }
{
    match fault {
        FileFault::Failed => WholeFault::Failed,
        FileFault::Memory => WholeFault::Memory,
        FileFault::Ended { got } => WholeFault::Ended { said, got },
    }
}

// The length of a file, where it is there and has at most so many bytes.
fn few_bytes<H: Host, L: Library>(
    context: &Context<H>,
    library: &mut L,
    name: &str,
    most: u64,
) -> Result<u64, WholeFault>
    ensures few { IfOk result (IsFewBytes (L.replied library.new) name.now most) }
    ensures not { IfErr result (WholeRefusalIsTrue (L.told library.old) name.now most) }
    ensures refused { IfErr result (WholeRefusalIsRight (L.told library.old) (L.replied library.new) name.now most) }
    ensures library { LibraryKeeps L.told L.replied (IsOn (L.replied library.new) name.now) library.old library.new }
    ensures counts { CountsBy WholeFaultAfter (L.faults library.old) (L.faults library.new) result }
{
    match library.length(context.rt, context.alloc, name)? {
        None => Err(WholeFault::Absent),
        Some(said) => {
            if said > most {
                Err(WholeFault::TooLong)
            } else {
                Ok(said)
            }
        }
    }
}

/// The bytes of a file of at most so many bytes. Each byte is read once, into its place, and none past the
/// length that the library said of it. No other file is asked for. It allocates as many bytes as the file has.
pub fn read_whole<H: Host, L: Library>(
    context: &Context<H>,
    library: &mut L,
    name: &str,
    most: u64,
) -> Result<Vec<u8>, WholeFault>
    requires { most ≤ 2 ^ 63 }
    ensures loaded { IfOk result (λ bytes. IsLoadedAs (L.told library.old) (L.replied library.new) name.now most bytes.items) }
    ensures not { IfErr result (WholeRefusalIsTrue (L.told library.old) name.now most) }
    ensures refused { IfErr result (WholeRefusalIsRight (L.told library.old) (L.replied library.new) name.now most) }
    ensures library { LibraryKeeps L.told L.replied (IsOn (L.replied library.new) name.now) library.old library.new }
    ensures counts { CountsBy WholeFaultAfter (L.faults library.old) (L.faults library.new) result }
{
    let said = match few_bytes(context, library, name, most) {
        Ok(said) => said,
        Err(fault) => return Err(fault),
    };
    let Ok(mut bytes) = vec![in context.alloc; 0u8; said as usize] else {
        return Err(WholeFault::Memory);
    };
    match fill(context, library, name, 0, &mut bytes) {
        Ok(()) => Ok(bytes),
        Err(fault) => Err(fault_of(fault, said)),
    }
}
