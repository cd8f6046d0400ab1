//! Reads bytes of a file into their place: the one reader.
ghost use Rattle.std.specs.Prelude.{◌≡◌, ◌≤◌, ◌<◌, ◌+◌, ◌^◌, List, ℕ, Option, Some, length, take, drop, IfOk, OnOk, IfErr};
ghost use Rattle.ppq_outside.specs.Told.{HasCause, bytes_or_none};
ghost use Rattle.ppq_files.specs.Reading.{GivesMore, IsGivenAt, ReadsFile, CountsBy};
ghost use Rattle.ppq_files.specs.Filling.{ReadEndsIn, FaultAfter};

use crate::context::Context;
use crate::fault::FileFault;
use ppq_outside::{Host, Library, OutsideFault};

// Reads further bytes of a piece that begins at offset `at` of a file and of which `got` bytes are there, and
// returns how many came.
fn read_more<H: Host, L: Library>(
    context: &Context<H>,
    library: &mut L,
    name: &str,
    at: u64,
    piece: &mut [u8],
    got: usize,
) -> Result<usize, OutsideFault>
    requires room { got < length piece.old }
    requires fits { at + length piece.old ≤ 2 ^ 63 }
    ensures more { IfOk result (GivesMore (L.replied library.old) (L.replied library.new) name.now at got piece.old piece.new) }
    ensures reads { ReadsFile L.told L.replied name.now (at + length piece.old) library.old library.new }
    ensures cause { HasCause (L.faults library.old) (L.faults library.new) result }
{
    let rest = &mut piece[got..];
    let count = library.read_at(context.rt, context.alloc, name, at + got as u64, rest)?;
    Ok(count)
}

// Fills a piece with the bytes of a file from offset `at` on. Each byte is read once, into its place, and none
// behind the piece.
pub fn fill<H: Host, L: Library>(
    context: &Context<H>,
    library: &mut L,
    name: &str,
    at: u64,
    piece: &mut [u8],
) -> Result<(), FileFault>
    requires { at + length piece.old ≤ 2 ^ 63 }
    ensures given { OnOk result (IsGivenAt (L.replied library.new) name.now at piece.new) }
    ensures bytes { OnOk result ((files : List ℕ → Option (List ℕ)) → L.told library.old ≡ Some files → piece.new ≡ take (length piece.new) (drop at (bytes_or_none (files name.now)))) }
    ensures ended { IfErr result (ReadEndsIn (L.told library.old) (L.replied library.new) name.now at (at + length piece.old)) }
    ensures reads { ReadsFile L.told L.replied name.now (at + length piece.old) library.old library.new }
    ensures counts { CountsBy FaultAfter (L.faults library.old) (L.faults library.new) result }
{
    let mut got = 0;
    'reading: while got < piece.len() {
        match read_more(context, library, name, at, piece, got) {
            Ok(0) => {
                return Err(FileFault::Ended {
                    got: at + got as u64,
                });
            }
            Ok(count) => got += count,
            Err(fault) => return Err(FileFault::from(fault)),
        }
    }
    Ok(())
}
