//! What the clauses of a queue say together.
ghost use Rattle.ppq_queue.specs.Laws.{RefusalsAreRight, NoneInUse, WritesAreFew};

use ppq_heap::Record;

/// What the use of blocks (`Queue::known`: `used`) says of a device that seems full.
///
/// A call that found no free block was right to say so: the device has fewer blocks than are enough for the records
/// that the queue has now, let alone for its peak (`short`). And all blocks of a queue without records are free
/// (`none`). So no block is lost to a queue: those of runs that were merged or popped are free again.
///
/// It does nothing: its clauses are for the proof of whoever calls it, and for a reader.
#[inline]
pub fn blocks_are_used<R: Record>()
    ensures short { RefusalsAreRight R }
    ensures none { NoneInUse R }
{}

/// What the bound of writes comes to (`Queue::known`: `transfers`), where stores of full heaps were begun with
/// accepted records alone (`IsBackedQueue`).
///
/// With `p` workers and a heap of `h` blocks, 8 + (8 `p` + 4) / `h` records are written for each that is accepted, and
/// 10 `p` + 4 blocks for each session. So with a heap of 64 blocks and 4 workers a record is written less than 9 times.
///
/// It does nothing: its clause is for the proof of whoever calls it, and for a reader.
#[inline]
pub fn writes_are_few()
    ensures { WritesAreFew }
{}
