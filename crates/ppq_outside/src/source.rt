//! Where requests come from.
ghost use Rattle.std.specs.Prelude.{◌≡◌, ◌≤◌, ◌<◌, [], List, ℕ, Option, length, take, IfOk, OnErr};
ghost use Rattle.ppq_outside.specs.Told.{HasOneCause, GivesPiece, GivesBehind, NoneComes};

use crate::{Failed, Host};

/// Gives bytes, piece after piece, up to its end.
pub trait Source {
    /// Where it tells, all bytes that are to come.
    ghost told: { Self → Option (List ℕ) };

    /// Whether it gave these bytes so far: true of those that it gave, and of others only as far as it keeps no
    /// account of them. No code can ask it, so a caller that is proved for every source knows it of no bytes but those
    /// of its own calls.
    ghost gave: { Self → List ℕ → Type 0 };

    /// Whether it said that nothing more comes.
    ghost over: { Self → Type 0 };

    /// How many calls failed.
    ghost faults: { Self → ℕ };

    /// How many calls failed. It stands still at its last value, 2^64 - 1.
    fn faults(&self) -> u64
        ensures { result ≡ faults self.now };

    /// Copies the next bytes over the first ones of `into`, and returns their number. It may give fewer than `into`
    /// has room for, but gives 0 only at the end, or where `into` is empty. It may wait for whoever writes these bytes,
    /// forever. `Failed` is returned only if the count of faults rose; nothing is then known of `into`.
    fn get<H: Host>(&mut self, rt: &H, into: &mut [u8]) -> Result<usize, Failed>
        ensures bound { IfOk result (λ count. count ≤ length into.new) }
        ensures piece { IfOk result (λ count. GivesPiece (told self.old) (told self.new) (take count into.new)) }
        ensures gave { IfOk result (λ count. GivesBehind (gave self.old) (gave self.new) (take count into.new)) }
        ensures over { IfOk result (λ count. count ≡ 0 → 0 < length into.old → over self.new) }
        ensures kept { OnErr result (told self.new ≡ told self.old) }
        ensures remembers { OnErr result (GivesBehind (gave self.old) (gave self.new) []) }
        ensures cause { HasOneCause (faults self.old) (faults self.new) result };

    /// Where it tells, nothing comes after it said so.
    ghost truth: { (s : Self) → over s → NoneComes (told s) };
}
