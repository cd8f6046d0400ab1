//! Blocks that notice when what is read is not what was written.
//!
//! A device can give back other bytes than it was given: a bit that turned, an older version of the block,
//! another block, zeros. Such blocks are [`UntrustedSlot`]s, which an [`UntrustedRack`] makes: those of a real file,
//! and those in memory, which give back what they were given. [`Checked`] keeps a sum of the bytes that a block was
//! last given, 8 bytes in memory for each block, and refuses a read of bytes that have another sum: a failed call
//! like any other. So it is a `Slot` over any of them, and what stands above a `Slot` needs no case of its own.
//! [`CheckedRack`] makes such blocks over those of any device.
//!
//! What is proved: a read returns Ok only if the sum of what was read is the one that is kept. So over a block
//! that gives anything but other bytes of the same sum, it returns Ok only with what was written last. Bytes that
//! differ in one place have different sums; that other changes change the sum is likely, and not proved.
#![tactic(auto)]

mod checked;
mod checked_rack;
mod lanes;
mod memory;
mod sums;
mod untrusted_rack;
mod untrusted_slot;

pub use checked::Checked;
pub use checked_rack::CheckedRack;
pub use sums::{one_byte_is_noticed, sum};
pub use untrusted_rack::UntrustedRack;
pub use untrusted_slot::UntrustedSlot;
