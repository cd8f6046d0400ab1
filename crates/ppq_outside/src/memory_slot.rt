//! A block in memory.
ghost use Rattle.std.specs.Prelude.{◌≡◌, ◌≤◌, length, IfOk, OnOk, OnErr, not, is_ok, IsTrue, false};
ghost use Rattle.ppq_outside.specs.Told.{next_count};

use crate::forged::{forge, seed_of};
use crate::{Failed, Host, Slot};
use std::alloc::{AllocError, Global};
use std::marker::Model;

/// A block in memory. A call of it fails exactly where that was planned. It tells, unless it forges: then
/// it keeps nothing that is written, and gives other bytes at each read.
///
/// Its reads and writes are numbered together from 1.
#[derive(Drop)]
pub struct MemSlot {
    number: u32,
    // What it holds: zeros, for as long as nothing is written or it forges.
    bytes: Vec<u8>,
    // Where it forges, the number that its bytes begin with.
    forges: Option<u64>,
    // The numbers of the calls that are to fail.
    plan: Vec<u64>,
    // How many calls were made.
    calls: u64,
    // How many of them failed.
    faults: u64,
    writes: u64,
    reads: u64,
}

impl Model for MemSlot {
    ghost use Rattle.ppq_outside.specs.MemoryDevice.{SlotState};

    ghost Value = { SlotState };

    ghost view = { λ s. record { number = s.number; held = s.bytes.items; forges = s.forges; plan = s.plan.items; calls = s.calls; faults = s.faults; writes = s.writes; reads = s.reads } };
}

impl MemSlot {
    ghost use Rattle.ppq_outside.specs.MemoryDevice.{zero_slot, slot_fails, after_call};

    // A block that holds so many zeros, for which no call was made yet, and whose calls with these
    // numbers are to fail. With a number to begin with it forges.
    pub(crate) fn zeros(
        alloc: Global,
        number: u32,
        size: usize,
        plan: Vec<u64>,
        forges: Option<u64>,
    ) -> Result<MemSlot, AllocError>
        ensures { IfOk result (λ slot. slot ≡ zero_slot number size plan.items forges) }
    {
        Ok(MemSlot {
            number,
            bytes: vec![in alloc; 0; size]?,
            forges,
            plan,
            calls: 0,
            faults: 0,
            writes: 0,
            reads: 0,
        })
    }

    // Counts a call, and says whether it is to fail.
    fn fails(&mut self) -> bool
        ensures answer { result ≡ slot_fails self.old }
        ensures after { self.new ≡ after_call self.old }
        ensures later { self.old.faults ≤ self.new.faults }
        ensures once { IsTrue result → self.new.faults ≡ next_count self.old.faults }
    {
        self.calls = self.calls.saturating_add(1);
        let fails = self.plan.as_slice().contains(&self.calls);
        if fails {
            self.faults = self.faults.saturating_add(1);
        }
        fails
    }
}

impl Slot for MemSlot {
    ghost use Rattle.ppq_outside.specs.MemoryDevice.{slot_shown, slot_fails, read_from, after_write, after_read};
    ghost use Rattle.ppq_outside.specs.Shown.{IsWritten, IsRead};

    ghost shown = { slot_shown };

    fn number(&self) -> u32 {
        self.number
    }

    fn size(&self) -> usize {
        self.bytes.len()
    }

    fn faults(&self) -> u64 {
        self.faults
    }

    fn writes(&self) -> u64 {
        self.writes
    }

    fn reads(&self) -> u64 {
        self.reads
    }

    /// Fails exactly where that was planned, and the slot then holds what it held; else it holds the
    /// bytes, unless it forges: then the call answers Ok and keeps nothing.
    fn write<H: Host>(&mut self, _rt: &H, bytes: &[u8]) -> Result<(), Failed>
        requires { length bytes.now ≡ length self.old.held }
        ensures ok { is_ok result ≡ not (slot_fails self.old) }
        ensures after { self.new ≡ after_write self.old bytes.now }
        ensures shown { IsWritten result bytes.now (slot_shown self.old) (slot_shown self.new) }
    {
        if self.fails() {
            return Err(Failed);
        }
        if self.forges.is_none() {
            self.bytes.as_mut_slice().copy_from_slice(bytes);
        }
        self.writes = self.writes.saturating_add(1);
        Ok(())
    }

    /// Fails exactly where that was planned, and `into` is then as before; else it gives what the slot
    /// holds, unless it forges: then byte `j`, from 0, is the highest byte of the generator's state after
    /// `j + 1` steps, from the number that its bytes begin with, plus the block's number, plus the number of
    /// its reads before, modulo 2^64.
    fn read<H: Host>(&mut self, _rt: &H, into: &mut [u8]) -> Result<(), Failed>
        requires { length into.old ≡ length self.old.held }
        ensures ok { is_ok result ≡ not (slot_fails self.old) }
        ensures given { OnOk result (into.new ≡ read_from self.old) }
        ensures unread { OnErr result (into.new ≡ into.old) }
        ensures after { self.new ≡ after_read self.old }
        ensures shown { IsRead result into.new (slot_shown self.old) (slot_shown self.new) }
    {
        if self.fails() {
            return Err(Failed);
        }
        match self.forges {
            None => into.copy_from_slice(&self.bytes),
            Some(seed) => forge(seed_of(seed, self.number, self.reads), into),
        }
        self.reads = self.reads.saturating_add(1);
        Ok(())
    }

    /// Memory reads nothing by itself.
    fn expect<H: Host>(&self, _rt: &H) -> bool
        ensures { result ≡ false }
    {
        false
    }
}
