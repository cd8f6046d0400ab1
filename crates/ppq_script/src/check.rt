//! Looks for the files that a script names.
ghost use Rattle.std.specs.Prelude.{◌≡◌, ◌≤◌, None, length, map, string_bytes, is_ok, All, OnOk, OnErr, IfErr, IfSome, IsErrOf};
ghost use Rattle.std.specs.List.{AllZip};
ghost use Rattle.ppq_outside.specs.Told.{Rose, Remembers, RepliesOnly};
ghost use Rattle.ppq_files.specs.Reading.{LibraryKeeps};
ghost use Rattle.ppq_script.specs.Files.{is_usable, IsLength, NamesFile};
ghost use Rattle.ppq_script.specs.Checking.{bad_of, IsCheckAnswer, CheckRefusalIsRight, CommandsRefusalIsRight, ItemRefusalIsRight, IsSameItem, IsAsked, IsSameScript, with_sizes, StaysUnlessRead, IsKeptBy, IsKeptAmong, IsKeptLength, CountsFaults, check_refusal};
ghost use Rattle.ppq_script.specs.declared.check.CheckFault.TheVariants.{ReadFault};

use crate::{Command, Numbered, Script};
use ppq_files::{Context, LengthFault, record_length};
use ppq_outside::{Host, Library};
use ppq_record::Fields;
use std::alloc::Global;

/// Why a script's files were not all found.
#[derive(Clone, Copy, Debug, PartialEq, Eq)]
pub enum CheckFault {
    /// The first bad line, by the script's lines and files together.
    BadLine { line: u32 },
    /// The library failed.
    ReadFault,
    /// An allocation failed.
    Memory,
}

// Why there is no length of the file that the command on this line names.
fn refused(fault: LengthFault, line: u32) -> CheckFault
    ensures { result ≡ check_refusal line fault }
{
    match fault {
        LengthFault::Failed => CheckFault::ReadFault,
        LengthFault::Memory => CheckFault::Memory,
        LengthFault::Absent | LengthFault::NoRecords => CheckFault::BadLine { line },
    }
}

/// Asks a library the length of each file that the script names, in order, and keeps it in the
/// script's command. It costs one call of the library for each `bulk` line before the first bad line,
/// and reads nothing of the files. After `Ok` the library replied nothing more but the lengths that
/// the commands keep, so none was asked and then dropped.
///
/// A file that is absent, whose length is no multiple of a record's, or that has more than 4,294,967,296
/// records makes its line bad. `BadLine` is the first bad line, by lines and files together, and comes exactly
/// where there is one and no call failed before it. `ReadFault` comes only where the library's count
/// rose. After every answer but `Ok` the script is not checked, and the lengths that it keeps may
/// differ.
pub fn check_files<H: Host, L: Library, R: Fields>(
    rt: &H,
    alloc: Global,
    script: &mut Script<R>,
    library: &mut L,
) -> Result<(), CheckFault>
    ensures answer { IfSome (L.told library.old) (λ files. IsCheckAnswer (bad_of (is_usable R.Fields files) script.old) result) }
    ensures lengths { OnOk result (IfSome (L.told library.old) (λ files. script.new.commands ≡ with_sizes files script.old.names script.old.commands)) }
    ensures asked { OnOk result (AllZip (IsAsked R.Fields (L.replied library.new) script.old.names) script.old.commands script.new.commands) }
    ensures refused { IfErr result (CheckRefusalIsRight R.Fields (L.replied library.new) script.old) }
    ensures checked { script.new.checked ≡ is_ok result }
    ensures good { OnOk result (script.old.bad ≡ None) }
    ensures same { IsSameScript script.old script.new }
    ensures read { IsErrOf result ReadFault → Rose (L.faults library.old) (L.faults library.new) }
    ensures remembers { Remembers (L.replied library.old) (L.replied library.new) }
    ensures asks { RepliesOnly (L.replied library.old) (L.replied library.new) IsLength }
    ensures once { OnOk result (RepliesOnly (L.replied library.old) (L.replied library.new) (IsKeptLength script.new)) }
    ensures kept { L.told library.new ≡ L.told library.old }
    ensures later { L.faults library.old ≤ L.faults library.new }
    ensures stays { OnOk result (L.faults library.new ≡ L.faults library.old) }
    ensures unless { IfErr result (StaysUnlessRead (L.faults library.old) (L.faults library.new)) }
{
    script.ask_lengths(rt, alloc, library)
}

// Asks the length of each file that the commands name, up to the first that cannot be used, and
// keeps it in its command.
pub(crate) fn ask_all<H: Host, L: Library, R: Fields>(
    rt: &H,
    alloc: Global,
    names: &[String],
    commands: &mut [Numbered<R>],
    library: &mut L,
) -> Result<(), CheckFault>
    requires { All (λ n. NamesFile (length names.now) n.command) commands.old }
    ensures asked { OnOk result (AllZip (IsAsked R.Fields (L.replied library.new) (map string_bytes names.now)) commands.old commands.new) }
    ensures same { AllZip IsSameItem commands.old commands.new }
    ensures refused { IfErr result (CommandsRefusalIsRight R.Fields (L.replied library.new) (map string_bytes names.now) commands.old) }
    ensures library { LibraryKeeps L.told L.replied IsLength library.old library.new }
    ensures once { OnOk result (RepliesOnly (L.replied library.old) (L.replied library.new) (IsKeptAmong (map string_bytes names.now) commands.new)) }
    ensures faults { CountsFaults (L.faults library.old) (L.faults library.new) result }
{
    for item in commands.iter_mut() {
        match ask(rt, alloc, names, item, library) {
            Ok(()) => {}
            Err(fault) => return Err(fault),
        }
    }
    Ok(())
}

// Asks the length of the file that a command names, if it names one, and keeps it in the command.
fn ask<H: Host, L: Library, R: Fields>(
    rt: &H,
    alloc: Global,
    names: &[String],
    item: &mut Numbered<R>,
    library: &mut L,
) -> Result<(), CheckFault>
    requires { NamesFile (length names.now) item.old.command }
    ensures asked { OnOk result (IsAsked R.Fields (L.replied library.new) (map string_bytes names.now) item.old item.new) }
    ensures same { OnErr result (item.new ≡ item.old) }
    ensures refused { IfErr result (ItemRefusalIsRight R.Fields (L.replied library.new) (map string_bytes names.now) item.old) }
    ensures library { LibraryKeeps L.told L.replied IsLength library.old library.new }
    ensures once { OnOk result (RepliesOnly (L.replied library.old) (L.replied library.new) (λ reply. IsKeptBy (map string_bytes names.now) reply item.new)) }
    ensures faults { CountsFaults (L.faults library.old) (L.faults library.new) result }
{
    let Command::Bulk { file, .. } = item.command else {
        return Ok(());
    };
    let context = Context { rt, alloc };
    match record_length::<R, H, L>(&context, library, names[file as usize].as_str()) {
        Ok(length) => {
            item.command = Command::Bulk { file, length };
            Ok(())
        }
        Err(fault) => Err(refused(fault, item.line)),
    }
}
