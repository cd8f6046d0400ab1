//! One block of a device.
ghost use Rattle.std.specs.Prelude.{◌≡◌, length};
ghost use Rattle.ppq_outside.specs.Shown.{Shown, IsWritten, IsRead};

use crate::{Failed, Host};

/// One block of a device, read and written as a whole.
///
/// Its number and its size never change. Its three counts never fall, and each stands still at its
/// last value, 2^64 - 1.
pub trait Slot: Drop {
    /// What contracts see of it: its number and size, its counts, and where it tells the bytes that it
    /// holds.
    ghost shown: { Self → Shown };

    /// Its number on the device, from 0: which block it is.
    fn number(&self) -> u32
        ensures { result ≡ (shown self.now).number };

    /// Its length in bytes.
    fn size(&self) -> usize
        ensures { result ≡ (shown self.now).size };

    /// How many calls failed.
    fn faults(&self) -> u64
        ensures { result ≡ (shown self.now).faults };

    /// How many writes answered Ok.
    fn writes(&self) -> u64
        ensures { result ≡ (shown self.now).writes };

    /// How many reads answered Ok.
    fn reads(&self) -> u64
        ensures { result ≡ (shown self.now).reads };

    /// Writes the whole block: one block transfer. `Failed` is returned only if the count of faults
    /// rose, by exactly one, and nothing is then known of the bytes that the slot holds.
    fn write<H: Host>(&mut self, rt: &H, bytes: &[u8]) -> Result<(), Failed>
        requires { length bytes.now ≡ (shown self.old).size }
        ensures { IsWritten result bytes.now (shown self.old) (shown self.new) };

    /// Reads the whole block: one block transfer. `Failed` is returned only if the count of faults
    /// rose, by exactly one, and nothing is then known of `into`; the slot holds what it held.
    fn read<H: Host>(&mut self, rt: &H, into: &mut [u8]) -> Result<(), Failed>
        requires { length into.old ≡ (shown self.old).size }
        ensures { IsRead result into.new (shown self.old) (shown self.new) };

    /// Tells the device that this block is read soon. It is no block transfer, and nothing that contracts see
    /// changes. Returns whether the device reads the block by itself from now on: memory does not need to, and
    /// std has no call by which a file could. Whoever waits for blocks looks at the answer to see whether a thread
    /// of its own would gain time; no result depends on it.
    fn expect<H: Host>(&self, rt: &H) -> bool;
}
