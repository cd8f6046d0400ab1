//! A block of a device file.
ghost use Rattle.std.specs.Prelude.{None, ◌≡◌, ◌⊎◌, ◌≤◌, ◌<◌, ◌+◌, ◌*◌, ◌^◌, IfSome, IsNone, OnOk, OnErr, length};
ghost use Rattle.ppq_outside.specs.Told.{Rose, next_count};
ghost use Rattle.ppq_outside.specs.Shown.{IsWritten, IsRead};
ghost use Rattle.ppq_checked.specs.Untrusted.{IsUntrustedRead};
ghost use Rattle.ppq_raw.specs.Blocks.{shown_of};
ghost use Rattle.ppq_raw.specs.Transfers.{Keeps, Writes, Gives};

use crate::{RawFile, read_whole, write_whole};
use ppq_checked::UntrustedSlot;
use ppq_outside::{Failed, Host};
use std::marker::Model;

/// One block of a device file, over a handle of the file. It tells nothing of its contents, and is a
/// block to be trusted only in a [`Checked`](ppq_checked::Checked).
///
/// It reads and writes at its own offset, `number * size` bytes from the beginning of the file. No call
/// moves a position or takes a lock, so the transfers of several workers go on at once. One that comes short
/// goes on with the rest; one that moves nothing is a fault, and so is each error of the machine: a full
/// disk, or a file that was cut. So is a block that ends past the largest offset of a file, 2^63 - 1.
#[derive(Drop)]
pub struct RawSlot<F: RawFile> {
    // the handle of the device file
    file: F,
    // which block of the device it is, from 0
    number: u32,
    // its length in bytes
    size: usize,
    // how many calls failed
    faults: u64,
    // how many writes returned Ok
    writes: u64,
    // how many reads returned Ok
    reads: u64,
}

impl<F: RawFile> Model for RawSlot<F> {
    ghost use Rattle.ppq_raw.specs.Blocks.{BlockState};

    ghost Value = { BlockState F };

    ghost view = { λ s. record { file = s.file; number = s.number; size = s.size; faults = s.faults; writes = s.writes; reads = s.reads } };
}

// No file has a byte at this offset or behind it: 2^63.
const END_OF_OFFSETS: u64 = 9_223_372_036_854_775_808;

// Where a block begins in its file, in bytes, unless it ends past the largest offset.
fn begin_of(number: u32, size: usize) -> Option<u64>
    ensures begin { IfSome result (λ begin. begin ≡ number * size) }
    ensures end { IfSome result (λ begin. begin + size < 2 ^ 63) }
    ensures far { IsNone result → 2 ^ 63 ≤ number * size + size }
{
    let begin = u64::from(number).saturating_mul(size as u64);
    if begin.saturating_add(size as u64) < END_OF_OFFSETS {
        Some(begin)
    } else {
        None
    }
}

impl<F: RawFile> RawSlot<F> {
    // The block with this number and of so many bytes, for which no call was made yet.
    pub(crate) fn new(file: F, number: u32, size: usize) -> Self
        ensures { result ≡ record { file = file; number = number; size = size; faults = 0; writes = 0; reads = 0 } }
    {
        RawSlot {
            file,
            number,
            size,
            faults: 0,
            writes: 0,
            reads: 0,
        }
    }

    // Counts a failed call.
    fn fault(&mut self) -> Failed
        ensures file { self.new.file ≡ self.old.file }
        ensures number { self.new.number ≡ self.old.number }
        ensures size { self.new.size ≡ self.old.size }
        ensures writes { self.new.writes ≡ self.old.writes }
        ensures reads { self.new.reads ≡ self.old.reads }
        ensures later { self.old.faults ≤ self.new.faults }
        ensures rose { Rose self.old.faults self.new.faults }
        ensures once { self.new.faults ≡ next_count self.old.faults }
    {
        self.faults = self.faults.saturating_add(1);
        Failed
    }
}

impl<F: RawFile> UntrustedSlot for RawSlot<F> {
    ghost shown = { shown_of };

    ghost honest = { λ _. ⊥ };

    fn number(&self) -> u32 {
        self.number
    }

    fn size(&self) -> usize {
        self.size
    }

    fn faults(&self) -> u64 {
        self.faults
    }

    fn writes(&self) -> u64 {
        self.writes
    }

    fn reads(&self) -> u64 {
        self.reads
    }

    /// Puts all bytes at the block's offset. `Failed` is returned only if a raw write was refused, or the block
    /// ends past the largest offset.
    fn write<H: Host>(&mut self, _rt: &H, bytes: &[u8]) -> Result<(), Failed>
        requires { length bytes.now ≡ self.old.size }
        ensures bytes { OnOk result (Writes (F.holds self.old.file) (F.holds self.new.file) (self.old.number * self.old.size) bytes.now) }
        ensures cause { OnErr result (F.refused self.new.file ⊎ (2 ^ 63 ≤ self.old.number * self.old.size + self.old.size)) }
        ensures shown { IsWritten result bytes.now (shown_of self.old) (shown_of self.new) }
    {
        let Some(begin) = begin_of(self.number, self.size) else {
            return Err(self.fault());
        };
        match write_whole(&mut self.file, begin, bytes) {
            Ok(()) => {
                self.writes = self.writes.saturating_add(1);
                Ok(())
            }
            Err(_) => Err(self.fault()),
        }
    }

    /// Reads all bytes from the block's offset on. `Failed` is returned only if a raw read was refused, as
    /// at the end of the file, or the block ends past the largest offset.
    fn read<H: Host>(&mut self, _rt: &H, into: &mut [u8]) -> Result<(), Failed>
        requires { length into.old ≡ self.old.size }
        ensures bytes { OnOk result (Gives (F.holds self.old.file) (self.old.number * self.old.size) into.new) }
        ensures keeps { Keeps (F.holds self.old.file) (F.holds self.new.file) }
        ensures cause { OnErr result (F.refused self.new.file ⊎ (2 ^ 63 ≤ self.old.number * self.old.size + self.old.size)) }
        ensures shown { IsUntrustedRead result into.new (shown_of self.old) (shown_of self.new) }
        ensures honest { ⊥ → IsRead result into.new (shown_of self.old) (shown_of self.new) }
    {
        let Some(begin) = begin_of(self.number, self.size) else {
            return Err(self.fault());
        };
        match read_whole(&mut self.file, begin, into) {
            Ok(()) => {
                self.reads = self.reads.saturating_add(1);
                Ok(())
            }
            Err(_) => Err(self.fault()),
        }
    }

    /// Does nothing: std has no call that asks the system for a block which is read later.
    fn expect<H: Host>(&self, _rt: &H) -> bool {
        false
    }
}
