//! Merges with a thread beside: each batch of a level is written while the next one is taken, and of a
//! refill the next blocks are read while records are taken. A batch of four blocks, as a refill, has 8,192 records,
//! since of fewer than 4,096 neither pays.
use ppq_budget::Sizes;
use ppq_outside::{Host, MemRack, MemSlot, OpenGate, Slot};
use ppq_queue::{Queue, QueueFault};
use ppq_record::Pair;
use ppq_testkit::{opened, pair};
use std::alloc::Global;
use std::process::Abort;
use std::test::Fail;

// Four workers, 2,048 records a block, one block a heap, and a budget without a buffer: 100 blocks of records and
// one record a block. So each heap of a block goes to a block, the ninth is followed by a merge of 8, and a batch
// of a merge has four blocks.
fn wide() -> Option<Sizes> {
    Sizes::new(4, 2048, 1, 205400, 600)
}

// Pushes the keys from 0 to 163,839 in a mixed order: 80 heaps, of which 72 are merged into nine runs of the next
// level, and eight of these into one.
fn push_all<H: Host + Abort>(rt: &H, queue: &mut Queue<MemSlot, Pair>)
where
    H::Dir: Send,
{
    'pushing: for i in 0..163840u64 {
        assert_eq!(rt; queue.push(rt, pair(i * 7919 % 163840), &OpenGate), Ok(()));
    }
}

// Pops the keys from 0 to 163,839.
fn pop_all<H: Host + Abort>(rt: &H, queue: &mut Queue<MemSlot, Pair>)
where
    H::Dir: Send,
{
    'popping: for key in 0..163840u64 {
        assert_eq!(rt; queue.pop(rt, &OpenGate), Ok(Some(pair(key))));
    }
}

// Pushes until a push fails, and gives the number of the block that it names.
fn push_on<H: Host + Abort>(rt: &H, queue: &mut Queue<MemSlot, Pair>) -> Option<u32>
where
    H::Dir: Send,
{
    'pushing: for i in 0..163840u64 {
        match queue.push(rt, pair(i * 7919 % 163840), &OpenGate) {
            Ok(()) => {}
            Err((_record, QueueFault::Device { number })) => return Some(number),
            Err((_record, QueueFault::NoFreeBlock)) => return None,
        }
    }
    None
}

// How often the blocks 9 to 16 were written.
fn writes_of(blocks: &[MemSlot]) -> u64 {
    let mut writes = 0u64;
    for slot in blocks {
        let number = slot.number();
        if number >= 9 && number < 17 {
            writes = writes.saturating_add(slot.writes());
        }
    }
    writes
}

#[test]
fn all_records_come_in_order_after_merges_of_levels_by_four_workers(
    rt: HostRuntime,
) -> Result<(), Fail> {
    let mut queue = opened(&rt, rt.alloc(), &mut MemRack::new(), wide())?;
    push_all(&rt, &mut queue);
    pop_all(&rt, &mut queue);
    assert_eq!(rt; queue.close().len(), 600);
    Ok(())
}

#[test]
fn of_a_batch_the_first_failed_block_is_named(rt: HostRuntime) -> Result<(), Fail> {
    let alloc = rt.alloc();
    // the first merge writes blocks 9 to 12 and then 13 to 16
    let mut rack = MemRack::failing(vec![in alloc; (11, 1), (10, 1)]?, Vec::new(alloc));
    let mut queue = opened(&rt, alloc, &mut rack, wide())?;
    assert_eq!(rt; push_on(&rt, &mut queue), Some(10));
    let blocks = queue.close();
    assert_eq!(rt; blocks.len(), 600);
    // blocks 9 and 12, and none of the next batch
    assert_eq!(rt; writes_of(&blocks), 2);
    Ok(())
}

// Four workers, 2,048 records a block, eight blocks a heap, and a budget without a buffer: 128 blocks of records
// and one record a block. So each heap of 16,384 records goes to eight blocks, and a refill takes 8,192 records.
pub(crate) fn long() -> Option<Sizes> {
    Sizes::new(4, 2048, 8, 262744, 600)
}

// Pushes the keys 0, 2 to 32,766, which go to the blocks 0 to 7, then 1, 3 to 32,767, which go to 8 to 15, and
// 32,768.
pub(crate) fn push_two_runs<H: Host + Abort, S: Slot + Send + Sync>(
    rt: &H,
    queue: &mut Queue<S, Pair>,
)
where
    H::Dir: Send,
{
    'pushing: for i in 0..32769u64 {
        let key = if i < 32768 {
            i * 2 % 32768 + i / 16384
        } else {
            i
        };
        assert_eq!(rt; queue.push(rt, pair(key), &OpenGate), Ok(()));
    }
}

// How often the block with this number was read.
fn reads_of(blocks: &[MemSlot], number: u32) -> u64 {
    let mut reads = 0u64;
    for slot in blocks {
        if slot.number() == number {
            reads = reads.saturating_add(slot.reads());
        }
    }
    reads
}

#[test]
fn a_refill_reads_the_next_blocks_beside_its_merge(rt: HostRuntime) -> Result<(), Fail> {
    let mut queue = opened(&rt, rt.alloc(), &mut MemRack::new(), long())?;
    push_two_runs(&rt, &mut queue);
    assert_eq!(rt; queue.pop(&rt, &OpenGate), Ok(Some(pair(0))));
    let blocks = queue.close();
    // the keys 0 to 8,191 are of the blocks 0, 1, 8 and 9
    assert_eq!(rt; (reads_of(&blocks, 1), reads_of(&blocks, 9)), (1, 1));
    // the next two, and none after them
    assert_eq!(rt; (reads_of(&blocks, 2), reads_of(&blocks, 10)), (1, 1));
    assert_eq!(rt; (reads_of(&blocks, 3), reads_of(&blocks, 11)), (0, 0));
    Ok(())
}

#[test]
fn all_records_come_in_order_after_refills_by_four_workers(rt: HostRuntime) -> Result<(), Fail> {
    let mut queue = opened(&rt, rt.alloc(), &mut MemRack::new(), long())?;
    push_two_runs(&rt, &mut queue);
    'popping: for key in 0..32769u64 {
        assert_eq!(rt; queue.pop(&rt, &OpenGate), Ok(Some(pair(key))));
    }
    assert_eq!(rt; queue.close().len(), 600);
    Ok(())
}

// Pops where the second call of a block fails, which is its read, and expects that the pop names it.
fn pop_in_vain<H: Host + Abort>(rt: &H, alloc: Global, number: u32) -> Result<(), Fail>
where
    H::Dir: Send,
{
    let mut rack = MemRack::failing(vec![in alloc; (number, 2)]?, Vec::new(alloc));
    let mut queue = opened(rt, alloc, &mut rack, long())?;
    push_two_runs(rt, &mut queue);
    assert_eq!(rt;
        queue.pop(rt, &OpenGate),
        Err(QueueFault::Device { number })
    );
    assert_eq!(rt; queue.close().len(), 600);
    Ok(())
}

#[test]
fn a_read_that_fails_beside_a_merge_is_named_though_the_merge_does_not_want_it(
    rt: HostRuntime,
) -> Result<(), Fail> {
    pop_in_vain(&rt, rt.alloc(), 2)?;
    pop_in_vain(&rt, rt.alloc(), 10)
}
