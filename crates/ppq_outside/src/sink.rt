//! Where output goes.
ghost use Rattle.std.specs.Prelude.{◌≡◌, List, ℕ, Option, OnOk};
ghost use Rattle.ppq_outside.specs.Told.{HasOneCause, TakesAll, TakesPart};

use crate::{Failed, Host};

/// Takes output, piece after piece.
pub trait Sink {
    /// Where it tells, all bytes that it took.
    ghost told: { Self → Option (List ℕ) };

    /// How many calls failed.
    ghost faults: { Self → ℕ };

    /// How many calls failed. It stands still at its last value, 2^64 - 1.
    fn faults(&self) -> u64
        ensures { result ≡ faults self.now };

    /// Appends the whole piece, or a prefix of it where it fails. `Failed` is returned only if the
    /// count of faults rose.
    fn put<H: Host>(&mut self, rt: &H, bytes: &[u8]) -> Result<(), Failed>
        ensures all { OnOk result (TakesAll (told self.old) (told self.new) bytes.now) }
        ensures part { TakesPart (told self.old) (told self.new) bytes.now }
        ensures cause { HasOneCause (faults self.old) (faults self.new) result };
}
