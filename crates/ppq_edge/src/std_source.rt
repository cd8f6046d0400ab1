//! Standard input, as a source.
ghost use Rattle.std.specs.Prelude.{None, ◌≡◌, ◌≤◌, ⊤};
ghost use Rattle.ppq_outside.specs.Told.{Rose};

use ppq_outside::{Failed, Host, Source};
use std::io::Read;

/// What a reader gives, as the standard input of the process. It tells nothing of it.
#[derive(Drop)]
pub struct StdSource<I: Read + Drop> {
    // what is read
    reader: I,
    // how many calls failed
    faults: u64,
}

impl<I: Read + Drop> StdSource<I> {
    /// A source over a reader, without a fault so far.
    pub fn new(reader: I) -> Self
        ensures { ⟦<StdSource<I> as Source>⟧.faults result ≡ 0 }
    {
        StdSource { reader, faults: 0 }
    }

    // Counts a failed call.
    fn fault(&mut self) -> Failed
        ensures later { self.old.faults ≤ self.new.faults }
        ensures rose { Rose self.old.faults self.new.faults }
    {
        self.faults = self.faults.saturating_add(1);
        Failed
    }
}

impl<I: Read + Drop> Source for StdSource<I> {
    ghost told = { λ _. None };

    ghost gave = { λ _ _. ⊤ };

    ghost over = { λ _. ⊤ };

    ghost faults = { λ s. s.faults };

    fn faults(&self) -> u64 {
        self.faults
    }

    fn get<H: Host>(&mut self, _rt: &H, into: &mut [u8]) -> Result<usize, Failed> {
        match self.reader.read(into) {
            Ok(count) => Ok(count),
            Err(_) => Err(self.fault()),
        }
    }

    ghost truth = { λ _ _. tt };
}
