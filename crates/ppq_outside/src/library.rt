//! Named files that are read.
ghost use Rattle.std.specs.Prelude.{◌≡◌, ◌≤◌, List, ℕ, Option, length, take, IfOk};
ghost use Rattle.ppq_outside.specs.Told.{HasCause, TellsReply, Reply, OfLength, OfRead, Remembers, RepliesOnly, IsLengthGiven, IsOfRead};

use crate::{Host, OutsideFault};
use std::alloc::Global;

/// Reads named files.
///
/// A library that tells is a map from names to bytes; no call changes it, and each of its replies is
/// true of it. One that does not tell may reply anything.
pub trait Library {
    /// Where it tells, the bytes of each name, and none for the name of no file.
    ghost told: { Self → Option (List ℕ → Option (List ℕ)) };

    /// Whether it gave this reply: true of each reply that it gave, and of others only as far as it
    /// keeps no account of them. No code can ask it, so a caller that is proved for every library
    /// knows it of no reply but those of its own calls, and that its calls add none but theirs.
    ghost replied: { Self → Reply → Type 0 };

    /// How many calls failed.
    ghost faults: { Self → ℕ };

    /// How many calls failed. It stands still at its last value, 2^64 - 1.
    fn faults(&self) -> u64
        ensures { result ≡ faults self.now };

    /// The length of a file in bytes, or `None` where there is no such file. `Failed` is returned
    /// only if the count of faults rose.
    fn length<H: Host>(
        &mut self,
        rt: &H,
        alloc: Global,
        name: &str,
    ) -> Result<Option<u64>, OutsideFault>
        ensures replied { IfOk result (λ size. replied self.new (OfLength name.now size)) }
        ensures remembers { Remembers (replied self.old) (replied self.new) }
        ensures asks { RepliesOnly (replied self.old) (replied self.new) (IsLengthGiven name.now result) }
        ensures kept { told self.new ≡ told self.old }
        ensures cause { HasCause (faults self.old) (faults self.new) result };

    /// Copies bytes of a file, from offset `at` on, over the first bytes of `into`, and returns their
    /// number. It may give fewer than `into` has room for, but gives 0 only at or past the end of the
    /// file, where there is no such file, or where `into` is empty. `Failed` is returned only if the
    /// count of faults rose, and nothing is then known of `into`.
    fn read_at<H: Host>(
        &mut self,
        rt: &H,
        alloc: Global,
        name: &str,
        at: u64,
        into: &mut [u8],
    ) -> Result<usize, OutsideFault>
        ensures bound { IfOk result (λ count. count ≤ length into.new) }
        ensures replied { IfOk result (λ count. replied self.new (OfRead name.now at (length into.new) (take count into.new))) }
        ensures remembers { Remembers (replied self.old) (replied self.new) }
        ensures asks { RepliesOnly (replied self.old) (replied self.new) (IsOfRead name.now at (length into.old)) }
        ensures kept { told self.new ≡ told self.old }
        ensures cause { HasCause (faults self.old) (faults self.new) result };

    /// Where it tells, each of its replies is true of its files.
    ghost truth: { (s : Self) (reply : Reply) → replied s reply → TellsReply (told s) reply };
}
