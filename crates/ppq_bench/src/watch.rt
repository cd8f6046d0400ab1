//! How long the longest of some calls takes.
use std::io;
use std::rt::Clock;
use std::time::Instant;

// How long the longest of some calls took, if they are timed.
#[derive(Drop)]
pub(crate) struct Watch {
    // Whether calls are timed.
    is_on: bool,
    // The microseconds of the longest call so far, rounded down.
    longest: Option<u64>,
}

impl Watch {
    // A watch that times calls, or does not.
    pub(crate) fn new(is_on: bool) -> Self {
        Watch {
            is_on,
            longest: None,
        }
    }

    // The microseconds of the longest call, rounded down, if any was timed.
    pub(crate) fn longest(&self) -> Option<u64> {
        self.longest
    }

    // The time at which a call begins, if calls are timed.
    pub(crate) fn start<C: Clock>(&self, rt: &C) -> io::Result<Option<Instant>> {
        if self.is_on {
            Ok(Some(Instant::now(rt)?))
        } else {
            Ok(None)
        }
    }

    // Notes that the call that began at this time has ended.
    pub(crate) fn stop<C: Clock>(&mut self, rt: &C, start: Option<Instant>) -> io::Result<()> {
        if let Some(start) = start {
            let took = start.elapsed(rt)?.as_micros().min(u128::from(u64::MAX)) as u64;
            self.longest = Some(took.max(self.longest.unwrap_or(0)));
        }
        Ok(())
    }
}
