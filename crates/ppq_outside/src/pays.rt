//! When a thread pays: from which size on work is shared.
//!
//! Measured on four cores at 2.5 GHz, with pairs of 16 bytes; a thread is started and joined for each piece of work.
//!
//! | What | Time |
//! |---|---|
//! | start and join a thread | 15 to 40 microseconds |
//! | start and join three threads | some 80 microseconds |
//! | one worker merges 4,096 records of 8 runs | some 80 microseconds |
//! | one worker merges 6,144 records | some 120 microseconds |
//! | one worker takes a batch of 4,096 records off runs in blocks | some 160 microseconds |
//! | a cut of 8 runs at a rank | some 17 microseconds |
//! | a block of 64 KiB read from or written to memory of the system | some 20 microseconds |

/// How many records a worker's piece of a merge has at least, beside those for each run. A worker merges them
/// in some 120 microseconds: three times what its thread costs, and more than its cut and its thread together.
pub const LEAST_PIECE: u64 = 6144;

/// How many records a worker's piece of a merge has at least for each run. A cut looks about forty times into
/// each run, which takes as long as the merge of so many records.
pub const LEAST_PIECE_OF_A_RUN: u64 = 8;

/// How few workers have a thread that reads or writes blocks beside a merge.
///
/// A turn with two blocks read beside its merge starts and joins one thread more, which costs as much as one
/// or two transfers of blocks that the system has in memory, and there is one merge more for about every second
/// batch. A batch that is written beside the taking of the next one costs the same. So with four workers or
/// more, whose batches have four blocks or more, nothing is lost where no call waits, and a device that makes
/// its caller wait gains; with fewer something would be lost.
pub const LEAST_WORKERS_BESIDE: u32 = 4;

/// How few records are merged while blocks are read or written beside them. One worker merges them in some 80
/// microseconds, and takes them off runs in blocks in some 160.
pub const LEAST_RECORDS_BESIDE: usize = 4096;

/// How few blocks of a run are written as a group on a thread of their own. A thread costs as much as one or
/// two block writes into memory that the machine writes out later, and many times that where all processors have
/// work; so smaller groups are written by the calling thread.
pub const LEAST_GROUP: u32 = 8;

/// How many blocks a group has at most. Larger ones gain nothing: the first group is merged while nothing is
/// written.
pub const MOST_GROUP: u32 = 36;
