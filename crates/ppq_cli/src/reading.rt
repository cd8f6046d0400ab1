//! Reads a script from its bytes.
ghost use Rattle.std.specs.Prelude.{◌≡◌, ◌≤◌, length, true, IfOk, IfErr};
ghost use Rattle.ppq_words.specs.ppq_script.Head.{is_typed};
ghost use Rattle.ppq_words.specs.ppq_script.Lines.{head_of};
ghost use Rattle.ppq_words.specs.ppq_outside.Told.{RepliesOnly};
ghost use Rattle.ppq_words.specs.ppq_script.Files.{IsLength};
ghost use Rattle.ppq_words.specs.ppq_script.Checking.{IsKeptLength};
ghost use Rattle.ppq_cli.specs.Load.{CheckCounts, check_end};
ghost use Rattle.ppq_cli.specs.Replies.{IsScript, IsRefused};
ghost use Rattle.ppq_files.specs.Reading.{LibraryKeeps};

use ppq_jobs::End;
use ppq_words::{CheckFault, Fields, Host, Library, Script, check_files, read};
use std::alloc::Global;

/// Reads a script whole, and asks the length of each file that it names. A script of which some line is
/// bad, or names a file that cannot be used, is refused with the first such line; after `Ok` no other length
/// was asked.
pub fn read_script<R: Fields, H: Host, L: Library>(
    rt: &H,
    alloc: Global,
    bytes: &[u8],
    library: &mut L,
    workers: u32,
) -> Result<Script<R>, CheckFault>
    requires short { length bytes.now ≤ 1_048_576 }
    requires typed { is_typed R.Fields (head_of bytes.now) ≡ true }
    ensures script { IfOk result (IsScript R.Fields (L.told library.old) (L.replied library.new) bytes.now workers) }
    ensures refused { IfErr result (IsRefused R.Fields (L.told library.old) (L.replied library.new) bytes.now workers) }
    ensures library { LibraryKeeps L.told L.replied IsLength library.old library.new }
    ensures asked { IfOk result (λ script. RepliesOnly (L.replied library.old) (L.replied library.new) (IsKeptLength script)) }
    ensures counts { CheckCounts (L.faults library.old) (L.faults library.new) result }
{
    let Ok(mut script) = read(alloc, bytes, workers) else {
        return Err(CheckFault::Memory);
    };
    match check_files(rt, alloc, &mut script, library) {
        Ok(()) => Ok(script),
        Err(fault) => Err(fault),
    }
}

/// A fault of a script's files as an end.
pub fn end_of_check(fault: CheckFault) -> End
    ensures { result ≡ check_end fault }
{
    match fault {
        CheckFault::BadLine { line } => End::BadLine { line },
        CheckFault::ReadFault => End::ReadFault,
        CheckFault::Memory => End::Memory,
    }
}
