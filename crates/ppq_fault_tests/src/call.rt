//! The call of the outside that fails.

use ppq_cli::End;

/// A call of the outside that is to fail. Calls are numbered from 1.
#[derive(Clone, Copy, Debug)]
pub enum Call {
    /// No call.
    No,
    /// A read or a write of the block with this number.
    Block { number: u32, call: u64 },
    /// A call of the library.
    Library { call: u64 },
    /// A put of the sink.
    Put { call: u64 },
}

/// How many calls failed.
#[derive(Clone, Copy, Debug, PartialEq, Eq)]
pub struct Faults {
    /// Of all blocks.
    pub blocks: u64,
    /// Of the block that was to fail.
    pub block: u64,
    /// Of the library.
    pub library: u64,
    /// Of the rack.
    pub rack: u64,
    /// Of the sink.
    pub sink: u64,
}

impl Faults {
    /// None.
    pub const NONE: Faults = Faults {
        blocks: 0,
        block: 0,
        library: 0,
        rack: 0,
        sink: 0,
    };
}

impl Call {
    /// How a script ends where this call fails.
    pub fn end(self) -> End {
        match self {
            Call::No => End::Done,
            Call::Block { number, call: _ } => End::DeviceFault { number },
            Call::Library { call: _ } => End::ReadFault,
            Call::Put { call: _ } => End::WriteFault,
        }
    }

    /// What fails where this call fails: that call alone.
    pub fn faults(self) -> Faults {
        let mut faults = Faults::NONE;
        match self {
            Call::No => {}
            Call::Block { number: _, call: _ } => {
                faults.blocks = 1;
                faults.block = 1;
            }
            Call::Library { call: _ } => faults.library = 1,
            Call::Put { call: _ } => faults.sink = 1,
        }
        faults
    }
}
