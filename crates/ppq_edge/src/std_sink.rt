//! Standard output and standard error, as sinks.
ghost use Rattle.std.specs.Prelude.{None, ◌≡◌, ◌≤◌};
ghost use Rattle.ppq_outside.specs.Told.{Rose};

use ppq_outside::{Failed, Host, Sink};
use std::io::{self, Eprint};
use std::str;

/// A stream of the process. It tells nothing of what it took.
#[derive(Drop)]
pub struct StdSink {
    // whether it is standard error
    error: bool,
    // how many calls failed
    faults: u64,
}

impl StdSink {
    /// Standard output.
    pub fn out() -> Self
        ensures { ⟦<StdSink as Sink>⟧.faults result ≡ 0 }
    {
        StdSink {
            error: false,
            faults: 0,
        }
    }

    /// Standard error, which takes text alone.
    pub fn err() -> Self
        ensures { ⟦<StdSink as Sink>⟧.faults result ≡ 0 }
    {
        StdSink {
            error: true,
            faults: 0,
        }
    }

    // Counts a failed call.
    fn fault(&mut self) -> Failed
        ensures stream { self.new.error ≡ self.old.error }
        ensures later { self.old.faults ≤ self.new.faults }
        ensures rose { Rose self.old.faults self.new.faults }
    {
        self.faults = self.faults.saturating_add(1);
        Failed
    }
}

// Writes all bytes of a text to standard error; bytes that are no text are refused.
fn write_error<H: Eprint>(rt: &H, bytes: &[u8]) -> io::Result<()> {
    match str::from_utf8(bytes) {
        Ok(text) => rt.eprint(text),
        Err(_) => Err(io::Error::from(io::ErrorKind::InvalidData)),
    }
}

impl Sink for StdSink {
    ghost told = { λ _. None };

    ghost faults = { λ s. s.faults };

    fn faults(&self) -> u64 {
        self.faults
    }

    fn put<H: Host>(&mut self, rt: &H, bytes: &[u8]) -> Result<(), Failed> {
        let written = if self.error {
            write_error(rt, bytes)
        } else {
            rt.write_all(bytes)
        };
        match written {
            Ok(()) => Ok(()),
            Err(_) => Err(self.fault()),
        }
    }
}
