//! Reads a script.
ghost use Rattle.std.specs.Prelude.{◌≡◌, ◌+◌, ◌≤◌, ◌<◌, ◌^◌, ◌∷◌, ◌++◌, [], ℕ, Bool, List, Some, None, if◌then◌else◌, true, false, length, map, string_bytes, IfOk, OnOk, IsTrue, IsFalse};
ghost use Rattle.ppq_script.specs.Lines.{lines_of, Bad, kinds_of, numbered_of, names_of, first_bad, first_bad_by, head_of};
ghost use Rattle.ppq_script.specs.Head.{is_typed};
ghost use Rattle.ppq_script.specs.Sessions.{is_outside};
ghost use Rattle.ppq_script.specs.Shown.{kind_in};
ghost use Rattle.ppq_script.specs.Taken.{IsTaken, IsBehindHead};
ghost use Rattle.ppq_script.specs.declared.command.Command.TheVariants.{Bulk};
ghost use Rattle.ppq_script.specs.Checking.{bad_of};

use crate::fields::place_of;
use crate::head::read_head_line;
use crate::line::{Line, read_line};
use crate::session::{Session, place, session_after, stands_outside};
use crate::{Command, Numbered, Script};
use ppq_record::{Fields, Memory};
use std::alloc::Global;

/// Reads a script of at most 1,048,576 bytes for so many workers: the commands before its first
/// bad line, with their lines, and that line. Its records are those of which its head speaks, as
/// `Head::is_of` tells of the head that `read_head` reads. It costs time linear in the bytes; the
/// answer is an error only where memory for the commands and the names of files is wanting.
///
/// The first bad line is here one by the lines alone; `check_files` looks for the files. Until then
/// the script is not checked, and each command has length 0 for its file. Where a session is open at
/// the end, the line after the last is bad.
pub fn read<R: Fields>(alloc: Global, bytes: &[u8], workers: u32) -> Result<Script<R>, Memory>
    requires length { length bytes.now ≤ 1_048_576 }
    requires head { is_typed R.Fields (head_of bytes.now) ≡ true }
    ensures commands { IfOk result (λ script. script.commands ≡ numbered_of 1 (kinds_of R.Fields workers (lines_of bytes.now))) }
    ensures names { IfOk result (λ script. script.names ≡ names_of (kinds_of R.Fields workers (lines_of bytes.now))) }
    ensures bad { IfOk result (λ script. script.bad ≡ first_bad 1 (kinds_of R.Fields workers (lines_of bytes.now))) }
    ensures workers { IfOk result (λ script. script.workers ≡ workers) }
    ensures unchecked { IfOk result (λ script. script.checked ≡ false) }
    ensures files { IfOk result (λ script. (usable : List ℕ → Bool) → bad_of usable script ≡ first_bad_by usable 1 (kinds_of R.Fields workers (lines_of bytes.now))) }
{
    let (mut rest, mut line) = behind_head(bytes);
    let mut commands = Vec::new(alloc);
    let mut names = Vec::new(alloc);
    let mut session = Session::Outside;
    while !rest.is_empty() {
        let (text, after) = cut_line(rest);
        let what = read_line(text);
        let next = session_after(&session, &what);
        let here = place(what, &session, workers);
        if !take_line(alloc, &mut commands, &mut names, line, here)? {
            return Ok(Script::from_parts(commands, Some(line), names, workers));
        }
        session = next;
        line += 1;
        rest = after;
    }
    let bad = bad_at_end(&session, line);
    Ok(Script::from_parts(commands, bad, names, workers))
}

// What stands behind the head, if there is one, and the number of its first line.
fn behind_head(bytes: &[u8]) -> (&[u8], u32)
    ensures lines { IsBehindHead (lines_of bytes.now) (lines_of result.0.now) result.1 }
    ensures long { result.1 + length result.0.now ≤ length bytes.now + 1 }
{
    if bytes.is_empty() {
        return (bytes, 1);
    }
    let (first, rest) = cut_line(bytes);
    match read_head_line(first) {
        None => (bytes, 1),
        Some(_) => (rest, 2),
    }
}

// The line after the last, with this number, where a session is open there.
fn bad_at_end<R: Fields>(session: &Session<R>, line: u32) -> Option<u32>
    ensures { result ≡ (if is_outside session.now then None else Some line) }
{
    if stands_outside(session) {
        None
    } else {
        Some(line)
    }
}

// Keeps what a line has where it stands, and says whether it is a good one.
fn take_line<R: Fields>(
    alloc: Global,
    commands: &mut Vec<Numbered<R>>,
    names: &mut Vec<String>,
    line: u32,
    here: Line<'_, R>,
) -> Result<bool, Memory>
    requires { length names.old.items < 2 ^ 32 }
    ensures good { IfOk result (λ good. IsTrue good → IsTaken line (kind_in here.entry) commands.old.items (map string_bytes names.old.items) commands.new.items (map string_bytes names.new.items)) }
    ensures bad { IfOk result (λ good. IsFalse good → (kind_in here.entry ≡ Bad) × ((commands.new.items ≡ commands.old.items) × (names.new.items ≡ names.old.items))) }
{
    match here {
        Line::Skipped => Ok(true),
        Line::Plain { command } => {
            commands.push(Numbered { line, command })?;
            Ok(true)
        }
        Line::OfFile { name } => {
            keep_file(alloc, commands, names, line, name)?;
            Ok(true)
        }
        Line::Bad => Ok(false),
    }
}

// Keeps a file's name, and the command that names it.
fn keep_file<R: Fields>(
    alloc: Global,
    commands: &mut Vec<Numbered<R>>,
    names: &mut Vec<String>,
    line: u32,
    name: &str,
) -> Result<(), Memory>
    requires { length names.old.items < 2 ^ 32 }
    ensures commands { OnOk result (commands.new.items ≡ commands.old.items ++ record { line = line; command = Bulk (length names.old.items) 0 } ∷ []) }
    ensures known { OnOk result (map string_bytes names.new.items ≡ map string_bytes names.old.items ++ name.now ∷ []) }
{
    let file = names.len() as u32;
    names.push(name.to_string(alloc)?)?;
    let command = Command::Bulk { file, length: 0 };
    commands.push(Numbered { line, command })?;
    Ok(())
}

// The first line without its line feed, and what stands behind it.
pub fn cut_line(rest: &[u8]) -> (&[u8], &[u8])
    requires { 0 < length rest.now }
    ensures lines { lines_of rest.now ≡ result.0.now ∷ lines_of result.1.now }
    ensures shorter { length result.1.now < length rest.now }
{
    match place_of(b'\n', rest) {
        Some(end) => (&rest[..end], &rest[end + 1..]),
        None => (rest, &rest[rest.len()..]),
    }
}
