//! How a command of the program ends.

/// How the execution of a script ends, or another command of the program. Each end but `Memory` has a cause that
/// the caller can see.
#[derive(Clone, Copy, Debug, PartialEq, Eq)]
pub enum End {
    /// All was executed, and all its output was taken.
    Done,
    /// The script's first bad line.
    BadLine { line: u32 },
    /// The arguments have no reading.
    Usage,
    /// The library failed.
    ReadFault,
    /// The sink failed.
    WriteFault,
    /// The block with this number failed.
    DeviceFault { number: u32 },
    /// A run of records found no free block.
    NoFreeBlock,
    /// The budget is below its fixed part, `need`: in records from `run_script`, and from the program in the
    /// unit in which the budget was given.
    BudgetTooSmall { need: u64 },
    /// An allocation failed.
    Memory,
    /// A file ended at `got`, before the length that it had, which was `said`, both in bytes.
    FileChanged { line: u32, said: u64, got: u64 },
    /// The device could not be made.
    NoDevice,
    /// The library has no script, no agenda, or no file of edges, of that name.
    NoScript,
    /// The script is longer than 1,048,576 bytes.
    ScriptTooLong,
    /// The agenda is not whole records of 24 bytes, or has more than 4,294,967,296 of them.
    BadAgenda,
    /// The record with this number, from 1 on, is the first of the file that is no edge; or with 0, the file is not
    /// whole records of 16 bytes, or has more than 4,294,967,296 of them.
    BadEdge { at: u64 },
}

/// How an execution ended, and the blocks that were made for it.
#[derive(Drop)]
pub struct Ended<S> {
    /// How it ended.
    pub end: End,
    /// The blocks, each once.
    pub blocks: Vec<S>,
}
