//! Why a run could not be stored.

/// Why runs could not be stored or merged.
#[derive(Clone, Copy, Debug, PartialEq, Eq)]
pub enum StoreFault {
    /// The supply had too few slots.
    NoFreeBlock,
    /// A read or write of a slot failed.
    Device {
        /// The number of that slot.
        number: u32,
    },
}
