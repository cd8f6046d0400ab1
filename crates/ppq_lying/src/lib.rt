//! A device in memory of which one read gives other bytes than the block was given, and says that all went well.
//!
//! It is for tests of what stands above, and shows that the law of an [`UntrustedSlot`](ppq_checked::UntrustedSlot)
//! is met by a device that lies.
#![tactic(auto)]

mod lie;
mod lying_rack;
mod lying_slot;

pub use lie::Lie;
pub use lying_rack::LyingRack;
pub use lying_slot::LyingSlot;
pub use ppq_checked::Checked;
