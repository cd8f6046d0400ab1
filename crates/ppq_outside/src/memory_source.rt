//! A source in memory.
ghost use Rattle.std.specs.Prelude.{◌≡◌, ◌≤◌, [], Some, length, take, not, is_ok, IsTrue};
ghost use Rattle.ppq_outside.specs.Told.{Rose};
ghost use Rattle.ppq_outside.specs.MemorySource.{fresh_source};

use crate::{Failed, Host, Source};
use std::marker::Model;

/// A source that gives bytes from memory, so many a call at the most. It tells. A call fails exactly where
/// that was planned.
///
/// Its calls are numbered from 1.
#[derive(Drop)]
pub struct MemSource {
    // All bytes.
    bytes: Vec<u8>,
    // How many of them it gave.
    at: usize,
    // How many bytes a call gives at the most.
    most: usize,
    // The numbers of the calls that are to fail.
    plan: Vec<u64>,
    // How many calls were made.
    calls: u64,
    // How many of them failed.
    faults: u64,
}

impl Model for MemSource {
    ghost use Rattle.std.specs.Prelude.{◌≤◌, vec_len, take, drop};
    ghost use Rattle.ppq_outside.specs.MemorySource.{SourceState};

    ghost Value = { SourceState };

    ghost view = { λ s. record { given = take s.at s.bytes.items; coming = drop s.at s.bytes.items; most = s.most; plan = s.plan.items; calls = s.calls; faults = s.faults } };

    ghost invariant = { λ s. s.at ≤ vec_len s.bytes };
}

impl MemSource {
    ghost use Rattle.ppq_outside.specs.MemorySource.{source_fails, after_get, GivesNext};

    /// A source of these bytes, which gives at most so many of them a call, or 1 if that is 0. The calls with
    /// the numbers of `plan` fail.
    pub fn new(bytes: Vec<u8>, most: usize, plan: Vec<u64>) -> MemSource
        ensures { result ≡ fresh_source bytes.items most plan.items }
    {
        MemSource {
            bytes,
            at: 0,
            most,
            plan,
            calls: 0,
            faults: 0,
        }
    }

    // Counts a call, and says whether it is to fail.
    fn fails(&mut self) -> bool
        ensures answer { result ≡ source_fails self.old }
        ensures after { self.new ≡ after_get self.old }
        ensures later { self.old.faults ≤ self.new.faults }
        ensures rose { IsTrue result → Rose self.old.faults self.new.faults }
    {
        self.calls = self.calls.saturating_add(1);
        let fails = self.plan.as_slice().contains(&self.calls);
        if fails {
            self.faults = self.faults.saturating_add(1);
        }
        fails
    }

    // Copies the next bytes over the first ones of `into`, and returns how many.
    fn give(&mut self, into: &mut [u8]) -> usize
        ensures bound { result ≤ length into.new }
        ensures next { GivesNext (length into.old) self.old self.new (take result into.new) }
    {
        let left = self.bytes.len() - self.at;
        let count = left.min(self.most.max(1)).min(into.len());
        into[..count].copy_from_slice(&self.bytes[self.at..self.at + count]);
        self.at += count;
        count
    }
}

impl Source for MemSource {
    ghost use Rattle.ppq_outside.specs.MemorySource.{source_fails};

    ghost told = { λ s. Some s.coming };

    ghost gave = { λ s given. given ≡ s.given };

    ghost over = { λ s. s.coming ≡ [] };

    ghost faults = { λ s. s.faults };

    fn faults(&self) -> u64 {
        self.faults
    }

    fn get<H: Host>(&mut self, _rt: &H, into: &mut [u8]) -> Result<usize, Failed> {
        if self.fails() {
            return Err(Failed);
        }
        Ok(self.give(into))
    }

    ghost truth = { λ _ over. over };
}
