//! A script as a list of commands.
ghost use Rattle.std.specs.Prelude.{◌≡◌, ◌+◌, ◌<◌, ◌≤◌, true, false, IsTrue, is_ok, OnOk, IfErr, length, drop, map, string_bytes, None, Some, All, slice_get, nat_eq};
ghost use Rattle.ppq_script.specs.Files.{NamesFile, HasRecords, IsLength, name_at};
ghost use Rattle.std.specs.List.{AllZip};
ghost use Rattle.ppq_script.specs.Parts.{IsPartAt, commands_in, first_in};
ghost use Rattle.ppq_script.specs.Reading.{IsReady};
ghost use Rattle.ppq_script.specs.Sessions.{are_in_place};
ghost use Rattle.ppq_script.specs.declared.session.Session.TheVariants.{Outside};
ghost use Rattle.ppq_script.specs.Checking.{CheckRefusalIsRight, IsAsked, IsKeptLength, IsSameScript, CountsFaults};
ghost use Rattle.ppq_outside.specs.Told.{RepliesOnly};
ghost use Rattle.ppq_files.specs.Reading.{LibraryKeeps};

use crate::check::ask_all;
use crate::part::session_lines;
use crate::{CheckFault, Command, Numbered, Part};
use ppq_outside::{Host, Library};
use ppq_record::Fields;
use std::alloc::Global;
use std::marker::Model;

/// The commands before the first bad line, and that line, as `read` found them, and the names of
/// the files. After `check_files` it has the files' lengths.
#[derive(Drop)]
pub struct Script<R: Fields> {
    commands: Vec<Numbered<R>>,
    bad: Option<u32>,
    // The names of the files, by the number that commands have for them.
    names: Vec<String>,
    workers: u32,
    // Whether the last check of the files answered Ok.
    checked: bool,
}

impl<R: Fields> Model for Script<R> {
    ghost use Rattle.std.specs.Prelude.{◌≡◌, true, None, length, map, string_bytes, All};
    ghost use Rattle.ppq_script.specs.Files.{NamesFile, HasRecords};
    ghost use Rattle.ppq_script.specs.Reading.{Reading};
    ghost use Rattle.ppq_script.specs.Sessions.{are_in_place};
    ghost use Rattle.ppq_script.specs.Words.{words};
    ghost use Rattle.ppq_script.specs.declared.session.Session.TheVariants.{Outside};

    ghost Value = { Reading R };

    ghost view = { λ s. record { commands = s.commands.items; bad = s.bad; names = map string_bytes s.names.items; workers = s.workers; checked = s.checked } };

    ghost invariant = { λ s. record { files : All (λ n. NamesFile (length s.names.items) n.command) s.commands.items; good : s.checked ≡ true → s.bad ≡ None; lengths : s.checked ≡ true → All (λ n. HasRecords (words R.PartialEq R.PartialOrd R.Ord R.Record R.Fields) n.command) s.commands.items; in_place : s.bad ≡ None → are_in_place (words R.PartialEq R.PartialOrd R.Ord R.Record R.Fields) s.workers Outside (map (λ n. n.command) s.commands.items) ≡ true } };
}

impl<R: Fields> Script<R> {
    ghost use Rattle.ppq_script.specs.Reading.{command_list, line_list};

    // A script of these parts, which is not checked.
    pub(crate) fn from_parts(
        commands: Vec<Numbered<R>>,
        bad: Option<u32>,
        names: Vec<String>,
        workers: u32,
    ) -> Script<R>
        requires files { All (λ n. NamesFile (length names.items) n.command) commands.items }
        requires in_place { bad ≡ None → are_in_place R.Fields workers Outside (map (λ n. n.command) commands.items) ≡ true }
        ensures { result ≡ record { commands = commands.items; bad = bad; names = map string_bytes names.items; workers = workers; checked = false } }
    {
        Script {
            commands,
            bad,
            names,
            workers,
            checked: false,
        }
    }

    /// The number of the first line, from 1, that is bad whatever the files are, if there is one.
    pub fn bad(&self) -> Option<u32>
        ensures { result ≡ self.now.bad }
    {
        self.bad
    }

    /// How many commands stand before that line.
    #[inline]
    pub fn len(&self) -> usize
        ensures { result ≡ length self.now.commands }
    {
        self.commands.len()
    }

    /// Whether there is no such command.
    pub fn is_empty(&self) -> bool
        ensures { result ≡ nat_eq (length self.now.commands) 0 }
    {
        self.commands.is_empty()
    }

    /// The command at a place, from 0. It costs one copy.
    ///
    /// A file that it names is one of the script's, and in a checked script the file's length is a
    /// multiple of a record's, and it has at most 4,294,967,296 records.
    #[inline]
    pub fn at(&self, i: usize) -> Command<R>
        requires { i < length self.now.commands }
        ensures command { slice_get (command_list self.now) i ≡ Some result }
        ensures file { NamesFile (length self.now.names) result }
        ensures records { IsTrue self.now.checked → HasRecords R.Fields result }
    {
        self.commands[i].command
    }

    /// The commands from a place on that run together, where no session is open: the session that
    /// begins there, or the one command. It costs a look at each line of the session.
    ///
    /// Its first command has what is said of the command `at` that place.
    pub fn part(&self, place: usize) -> Part<'_, R>
        requires place { place < length self.now.commands }
        requires outside { are_in_place R.Fields self.now.workers Outside (drop place (command_list self.now)) ≡ true }
        ensures part { IsPartAt R.Fields self.now place result }
        ensures within { place + length (commands_in result) ≤ length self.now.commands }
        ensures file { NamesFile (length self.now.names) (first_in result) }
        ensures records { IsTrue self.now.checked → HasRecords R.Fields (first_in result) }
    {
        let (_before, behind) = self.commands.split_at(place + 1);
        match self.at(place) {
            Command::BulkBegin => Part::Bulk {
                lines: session_lines(behind),
            },
            Command::LimitBegin { limit } => Part::Limit {
                limit,
                lines: session_lines(behind),
            },
            command => Part::One { command },
        }
    }

    /// The number of the line of the command at a place.
    pub fn line(&self, i: usize) -> u32
        requires { i < length self.now.commands }
        ensures { slice_get (line_list self.now) i ≡ Some result }
    {
        self.commands[i].line
    }

    /// The name of a file that a command of the script names, by its number there.
    pub fn name(&self, file: u32) -> &str
        requires { file < length self.now.names }
        ensures { result.now ≡ name_at self.now.names file }
    {
        self.names[file as usize].as_str()
    }

    /// The number of workers with which the script was read.
    pub fn workers(&self) -> u32
        ensures { result ≡ self.now.workers }
    {
        self.workers
    }

    /// Whether the last `check_files` on it answered Ok; it is false after `read`. Then no line is
    /// bad, each command's file has the length of a record file, whatever the library said, and each
    /// command may stand in its session.
    pub fn checked(&self) -> bool
        ensures checked { result ≡ self.now.checked }
        ensures ready { IsTrue result → IsReady R.Fields self.now }
    {
        self.checked
    }

    // Asks a library the length of each file and keeps it, as `check_files` does.
    pub(crate) fn ask_lengths<H: Host, L: Library>(
        &mut self,
        rt: &H,
        alloc: Global,
        library: &mut L,
    ) -> Result<(), CheckFault>
        ensures asked { OnOk result (AllZip (IsAsked R.Fields (L.replied library.new) self.old.names) self.old.commands self.new.commands) }
        ensures refused { IfErr result (CheckRefusalIsRight R.Fields (L.replied library.new) self.old) }
        ensures checked { self.new.checked ≡ is_ok result }
        ensures good { OnOk result (self.old.bad ≡ None) }
        ensures same { IsSameScript self.old self.new }
        ensures library { LibraryKeeps L.told L.replied IsLength library.old library.new }
        ensures once { OnOk result (RepliesOnly (L.replied library.old) (L.replied library.new) (IsKeptLength self.new)) }
        ensures faults { CountsFaults (L.faults library.old) (L.faults library.new) result }
    {
        self.checked = false;
        match ask_all(rt, alloc, &self.names, &mut self.commands, library) {
            Ok(()) => {}
            Err(fault) => return Err(fault),
        }
        match self.bad {
            Some(line) => Err(CheckFault::BadLine { line }),
            None => {
                self.checked = true;
                Ok(())
            }
        }
    }
}
