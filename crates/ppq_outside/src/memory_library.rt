//! A library in memory.
ghost use Rattle.std.specs.Prelude.{◌≡◌, ◌≤◌, ◌-◌, ◌∷◌, ◌++◌, [], Some, length, take, min, IfOk, OnOk, OnErr, IsTrue};
ghost use Rattle.std.specs.List.{AllZip};
ghost use Rattle.ppq_outside.specs.Told.{Rose, ReadsAt, HasCause, TellsReply, length_of, bytes_or_none};
ghost use Rattle.ppq_outside.specs.Entries.{file_of, files_of, Finds, IsShrunk};
ghost use Rattle.ppq_outside.specs.MemoryLibrary.{lookup, bytes_in, readable, readable_in, told_by};

use crate::{Host, Library, Memory, OutsideFault};
use std::alloc::Global;
use std::marker::Model;

// A name and its bytes.
#[derive(Drop)]
struct Entry {
    name: String,
    bytes: Vec<u8>,
    // Where reads end, in bytes, if the file was shrunk.
    end: Option<u64>,
}

/// Named files in memory. It tells, until `shrink` is called.
///
/// Its calls `length` and `read_at` are numbered together from 1. A call fails exactly where that
/// was planned by `fail_call`, and does not allocate.
#[derive(Drop)]
pub struct MemLibrary {
    // The latest entry of a name stands first.
    entries: Vec<Entry>,
    // Whether reads end where the entries say.
    shrunk: bool,
    // The numbers of the calls that are to fail.
    plan: Vec<u64>,
    // How many calls were made.
    calls: u64,
    // How many of them failed.
    faults: u64,
}

impl Model for MemLibrary {
    ghost use Rattle.ppq_outside.specs.MemoryLibrary.{LibraryState};

    ghost Value = { LibraryState };

    ghost use Rattle.ppq_outside.specs.Entries.{files_of};

    ghost view = { λ m. record { files = files_of m.entries.items; shrunk = m.shrunk; plan = m.plan.items; calls = m.calls; faults = m.faults } };
}

impl MemLibrary {
    ghost use Rattle.ppq_outside.specs.MemoryLibrary.{empty_library, whole_file, shrunk_library, fails_next, after_call};

    /// A library with no file, of which no call is planned to fail.
    pub fn new(alloc: Global) -> Self
        ensures { result ≡ empty_library }
    {
        MemLibrary {
            entries: Vec::new(alloc),
            shrunk: false,
            plan: Vec::new(alloc),
            calls: 0,
            faults: 0,
        }
    }

    /// Gives a name these bytes, also where it has others. It costs a move of every entry. Where
    /// memory is wanting, the library is as before.
    pub fn add(&mut self, alloc: Global, name: &str, bytes: &[u8]) -> Result<(), Memory>
        ensures ok { OnOk result (self.new ≡ record self.old { files = whole_file name.now bytes.now ∷ self.old.files }) }
        ensures err { OnErr result (self.new ≡ self.old) }
    {
        let entry = Entry {
            name: name.to_string(alloc)?,
            bytes: bytes.to_vec(alloc)?,
            end: None,
        };
        Ok(self.entries.insert(0, entry)?)
    }

    /// Plans that the call with this number, from 1, fails. Where memory is wanting, the library is as
    /// before.
    pub fn fail_call(&mut self, number: u64) -> Result<(), Memory>
        ensures ok { OnOk result (self.new ≡ record self.old { plan = self.old.plan ++ number ∷ [] }) }
        ensures err { OnErr result (self.new ≡ self.old) }
    {
        Ok(self.plan.push(number)?)
    }

    /// Makes reads of a file end at an offset, or at its own end if that comes first. Its length
    /// stays what it was, also where there is no such file. From then on the library does not tell,
    /// as a file that others write while it is read. It does not allocate, and costs a look at every
    /// entry.
    pub fn shrink(&mut self, name: &str, to: u64)
        ensures { self.new ≡ shrunk_library self.old name.now to }
    {
        end_reads(&mut self.entries, name, to);
        self.shrunk = true;
    }

    // Counts a call, and says whether it is to fail.
    fn fails(&mut self) -> bool
        ensures answer { result ≡ fails_next self.old }
        ensures after { self.new ≡ after_call self.old }
        ensures later { self.old.faults ≤ self.new.faults }
        ensures rose { IsTrue result → Rose self.old.faults self.new.faults }
    {
        self.calls = self.calls.saturating_add(1);
        let fails = self.plan.as_slice().contains(&self.calls);
        if fails {
            self.faults = self.faults.saturating_add(1);
        }
        fails
    }
}

// The entry of a name. It looks at the entries one after the other.
fn find<'a>(entries: &'a [Entry], name: &str) -> Option<&'a Entry>
    ensures { Finds (lookup (files_of entries.now) name.now) result }
{
    for entry in entries {
        if entry.name.as_str() == name {
            return Some(entry);
        }
    }
    None
}

// Makes reads of the entries of a name end at an offset.
fn end_reads(entries: &mut [Entry], name: &str, to: u64)
    ensures { AllZip (IsShrunk name.now to) entries.old entries.new }
{
    for entry in entries.iter_mut() {
        end_reads_of(entry, name, to);
    }
}

// Makes reads of an entry end at an offset, if it has this name.
fn end_reads_of(entry: &mut Entry, name: &str, to: u64)
    ensures { IsShrunk name.now to entry.old entry.new }
{
    if entry.name.as_str() == name {
        entry.end = Some(to);
    }
}

// The bytes of an entry that reads give, in a library that was shrunk or not.
fn readable_bytes(entry: &Entry, shrunk: bool) -> &[u8]
    ensures { result.now ≡ readable shrunk (file_of entry.now) }
{
    if !shrunk {
        return &entry.bytes;
    }
    match entry.end {
        None => &entry.bytes,
        Some(end) => &entry.bytes[..end.min(entry.bytes.len() as u64) as usize],
    }
}

// Copies bytes from an offset on over the first of `into`, as many as there are and fit.
fn copy_from(bytes: &[u8], at: u64, into: &mut [u8]) -> usize
    ensures count { result ≡ min (length into.new) (length bytes.now - at) }
    ensures given { ReadsAt bytes.now at (length into.new) (take result into.new) }
{
    if at >= bytes.len() as u64 {
        return 0;
    }
    let rest = &bytes[at as usize..];
    let count = rest.len().min(into.len());
    into[..count].copy_from_slice(&rest[..count]);
    count
}

impl Library for MemLibrary {
    ghost use Rattle.ppq_outside.specs.MemoryLibrary.{answer, after_call, count_at};

    ghost told = { told_by };

    ghost replied = { λ m. TellsReply (told_by m) };

    ghost faults = { λ m. m.faults };

    fn faults(&self) -> u64 {
        self.faults
    }

    /// Takes no memory, and fails exactly where that was planned.
    fn length<H: Host>(
        &mut self,
        _rt: &H,
        _alloc: Global,
        name: &str,
    ) -> Result<Option<u64>, OutsideFault>
        ensures answer { result ≡ answer self.old (length_of (bytes_in (lookup self.old.files name.now))) }
        ensures after { self.new ≡ after_call self.old }
        ensures cause { HasCause self.old.faults self.new.faults result }
    {
        if self.fails() {
            return Err(OutsideFault::Failed);
        }
        match find(&self.entries, name) {
            None => Ok(None),
            Some(entry) => Ok(Some(entry.bytes.len() as u64)),
        }
    }

    /// Takes no memory, fails exactly where that was planned, and gives as many bytes as there are
    /// before the file's end, or the end that `shrink` gave it, and as `into` has room for.
    fn read_at<H: Host>(
        &mut self,
        _rt: &H,
        _alloc: Global,
        name: &str,
        at: u64,
        into: &mut [u8],
    ) -> Result<usize, OutsideFault>
        ensures answer { result ≡ answer self.old (count_at (readable_in self.old.shrunk (lookup self.old.files name.now)) at (length into.new)) }
        ensures given { IfOk result (λ count. ReadsAt (bytes_or_none (readable_in self.old.shrunk (lookup self.old.files name.now))) at (length into.new) (take count into.new)) }
        ensures after { self.new ≡ after_call self.old }
        ensures cause { HasCause self.old.faults self.new.faults result }
    {
        if self.fails() {
            return Err(OutsideFault::Failed);
        }
        match find(&self.entries, name) {
            None => Ok(0),
            Some(entry) => Ok(copy_from(readable_bytes(entry, self.shrunk), at, into)),
        }
    }

    ghost truth = { λ m reply is. is };
}
