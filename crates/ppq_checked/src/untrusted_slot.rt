//! One block of a device that may give back other bytes than it was given.
ghost use Rattle.std.specs.Prelude.{◌≡◌, length};
ghost use Rattle.ppq_outside.specs.Shown.{Shown, IsWritten, IsRead};
ghost use Rattle.ppq_checked.specs.Untrusted.{IsUntrustedRead};

use ppq_outside::{Failed, Host};

/// One block of a device that may give back other bytes than it was given: bytes with a bit turned, an older
/// version of the block, another block, zeros. Blocks of real files are such blocks.
///
/// The one thing that it may not do is to give other bytes of the same sum ([`sum`](crate::sum)): that is what
/// a [`Checked`](crate::Checked) block over it cannot notice. What a block whose contents are visible to proofs
/// holds is what it was last given; all else is as for a [`Slot`](ppq_outside::Slot).
pub trait UntrustedSlot: Drop {
    /// What contracts see of it: its number and size, its counts, and if its contents are visible to proofs,
    /// the bytes that it was last given.
    ghost shown: { Self → Shown };

    /// Whether its next read gives back what it was given.
    ghost honest: { Self → Type 0 };

    /// Its number on the device, from 0: which block it is.
    fn number(&self) -> u32
        ensures { result ≡ (shown self.now).number };

    /// Its length in bytes.
    fn size(&self) -> usize
        ensures { result ≡ (shown self.now).size };

    /// How many calls failed; it saturates at 2^64 - 1.
    fn faults(&self) -> u64
        ensures { result ≡ (shown self.now).faults };

    /// How many writes returned Ok; it saturates at 2^64 - 1.
    fn writes(&self) -> u64
        ensures { result ≡ (shown self.now).writes };

    /// How many reads returned Ok; it saturates at 2^64 - 1.
    fn reads(&self) -> u64
        ensures { result ≡ (shown self.now).reads };

    /// Writes the whole block: one block transfer. `Failed` is returned only if the count of faults
    /// rose, by exactly one.
    fn write<H: Host>(&mut self, rt: &H, bytes: &[u8]) -> Result<(), Failed>
        requires { length bytes.now ≡ (shown self.old).size }
        ensures { IsWritten result bytes.now (shown self.old) (shown self.new) };

    /// Reads the whole block: one block transfer. It may give any bytes but others of the same sum. `Failed` is
    /// returned only if the count of faults rose, by exactly one, and nothing is then known of `into`.
    fn read<H: Host>(&mut self, rt: &H, into: &mut [u8]) -> Result<(), Failed>
        requires { length into.old ≡ (shown self.old).size }
        ensures shown { IsUntrustedRead result into.new (shown self.old) (shown self.new) }
        ensures honest { honest self.old → IsRead result into.new (shown self.old) (shown self.new) };

    /// Tells the device that this block is read soon: no block transfer, and nothing that contracts see. Returns
    /// whether the device reads it by itself from now on, as for a [`Slot`](ppq_outside::Slot).
    fn expect<H: Host>(&self, rt: &H) -> bool;
}
