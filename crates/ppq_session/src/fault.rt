//! Why a session did not begin, and how one ended.

use ppq_pass::QueueFault;

/// Why a session did not begin. The queue has the records that it had, but after `Device`.
#[derive(Clone, Copy, Debug, PartialEq, Eq)]
pub enum BeginFault {
    /// An allocation for what the passes keep failed, after all stores and merges of the beginning.
    Memory,
    /// The rest of the extract buffer, or a heap that a limit session stores, found neither buffers nor
    /// blocks, or a merge of levels found no blocks.
    NoFreeBlock,
    /// The block with this number failed, now or before. Records may be lost.
    Device { number: u32 },
}

/// How a session ended.
#[derive(Clone, Copy, Debug, PartialEq, Eq)]
pub enum SessionEnd {
    /// The queue has all records, and its levels are merged.
    Whole,
    /// `NoFreeBlock`: the queue has all records, but a merge of levels found no blocks. `Device`: the block
    /// with that number failed, in a pass, in a front or in a merge; records may be lost, and the queue is
    /// stopped.
    Stopped(QueueFault),
}
