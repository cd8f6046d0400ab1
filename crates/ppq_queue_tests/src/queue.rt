//! Worked examples of a queue over blocks in memory. Each queue is given to the helper that closes it: to drop
//! one in place would be proved anew in each test.
ghost use Rattle.std.specs.Prelude.{◌≡◌, Some};

use ppq_budget::Sizes;
use ppq_outside::{Host, MemRack, MemSlot, OpenGate, Slot};
use ppq_queue::{Queue, QueueFault, blocks_are_used};
use ppq_record::{Pair, sort};
use ppq_testkit::{draw, opened, pair, pushed};
use std::alloc::Global;
use std::process::Abort;

// Two workers, two records a block, one block a heap, 200 blocks, and a budget without a buffer.
pub(crate) fn small() -> Option<Sizes> {
    Sizes::new(2, 2, 1, 372, 200)
}

// A device in memory of whose block 0 the call with this number fails.
pub(crate) fn failing(rt: &impl Abort, alloc: Global, call: u64) -> MemRack {
    let calls = vec![in alloc; (0, call)].expect(rt, "memory");
    MemRack::failing(calls, Vec::new(alloc))
}

// A queue of these sizes over this device that holds these records.
pub(crate) fn holding<H: Host + Abort>(
    rt: &H,
    alloc: Global,
    mut rack: MemRack,
    sizes: Option<Sizes>,
    records: &[Pair],
) -> Queue<MemSlot, Pair>
where
    H::Dir: Send,
    ensures { sizes ≡ Some result.sizes }
{
    let empty = match opened(rt, alloc, &mut rack, sizes) {
        Ok(queue) => queue,
        Err(_) => panic!(rt; "the queue was not opened"),
    };
    match pushed(rt, empty, records) {
        Ok(queue) => queue,
        Err(_) => panic!(rt; "a push was refused"),
    }
}

// Closes a queue, and says whether so many blocks come back.
pub(crate) fn closes(queue: Queue<MemSlot, Pair>, blocks: usize) -> bool {
    queue.close().len() == blocks
}

// Pushes these records.
pub(crate) fn fill<H: Host + Abort>(rt: &H, queue: &mut Queue<MemSlot, Pair>, records: &[Pair])
where
    H::Dir: Send,
    ensures { queue.new.sizes ≡ queue.old.sizes }
{
    'pushes: for record in records {
        assert!(rt; queue.push(rt, *record, &OpenGate).is_ok());
    }
}

// Whether a pop gives this, a record or none.
fn pops<H: Host>(rt: &H, queue: &mut Queue<MemSlot, Pair>, least: Option<Pair>) -> bool
where
    H::Dir: Send,
{
    queue.pop(rt, &OpenGate) == Ok(least)
}

// Whether top and pop give these records in turn, and then none.
fn drains<H: Host>(rt: &H, queue: &mut Queue<MemSlot, Pair>, records: &[Pair]) -> bool
where
    H::Dir: Send,
{
    let mut is_same = true;
    for record in records {
        let top = queue.top(rt, &OpenGate) == Ok(Some(*record));
        is_same = is_same & top & pops(rt, queue, Some(*record));
    }
    is_same & pops(rt, queue, None) & (queue.size() == 0)
}

// How the block with this number came back: its writes, its reads and its faults.
fn calls_of(blocks: &[MemSlot], number: u32) -> Option<(u64, u64, u64)> {
    for slot in blocks {
        if slot.number() == number {
            return Some((slot.writes(), slot.reads(), slot.faults()));
        }
    }
    None
}

// Closes a queue, and says whether 200 blocks come back, the one with number 0 after these calls.
fn closes_after(queue: Queue<MemSlot, Pair>, calls: (u64, u64, u64)) -> bool {
    let blocks = queue.close();
    (blocks.len() == 200) & (calls_of(&blocks, 0) == Some(calls))
}

// Whether a queue has so many records once one more is pushed, and stays within its budget.
fn grows_to<H: Host + Abort>(
    rt: &H,
    queue: &mut Queue<MemSlot, Pair>,
    record: Pair,
    size: u64,
) -> bool
where
    H::Dir: Send,
{
    fill(rt, queue, &[record]);
    (queue.size() == size) & (queue.resident() <= 372)
}

// Whether a queue gives each of equal records back.
fn gives_equal_records<H: Host + Abort>(rt: &H, alloc: Global) -> bool
where
    H::Dir: Send,
{
    let mut queue = holding(rt, alloc, MemRack::new(), small(), &[]);
    let low = Pair { key: 3, value: 2 };
    let high = Pair { key: 3, value: 9 };
    let five = Pair { key: 5, value: 1 };
    let two = grows_to(rt, &mut queue, five, 1) & grows_to(rt, &mut queue, high, 2);
    let four = grows_to(rt, &mut queue, five, 3) & grows_to(rt, &mut queue, low, 4);
    let drained = drains(rt, &mut queue, &[low, high, five, five]);
    two & four & drained & closes_after(queue, (1, 1, 0))
}

#[test]
fn equal_records_come_back_as_often_as_they_were_pushed(rt: HostRuntime) {
    assert!(rt; gives_equal_records(&rt, rt.alloc()));
}

// Whether a push of the pair with this key is refused with this fault, and the record comes back.
fn refuses<H: Host>(rt: &H, queue: &mut Queue<MemSlot, Pair>, key: u64, fault: QueueFault) -> bool
where
    H::Dir: Send,
{
    queue.push(rt, pair(key), &OpenGate) == Err((pair(key), fault))
}

// Whether a queue over no block that holds 1 and 2 refuses 3, and takes it once 1 is popped.
fn takes_after_a_pop<H: Host + Abort>(rt: &H, alloc: Global) -> bool
where
    H::Dir: Send,
{
    let none = Sizes::new(1, 2, 1, 158, 0);
    let mut queue = holding(rt, alloc, MemRack::new(), none, &[pair(1), pair(2)]);
    let refused = refuses(rt, &mut queue, 3, QueueFault::NoFreeBlock) & (queue.size() == 2);
    let popped = pops(rt, &mut queue, Some(pair(1)));
    fill(rt, &mut queue, &[pair(3)]);
    let drained = drains(rt, &mut queue, &[pair(2), pair(3)]);
    refused & popped & drained & closes(queue, 0)
}

#[test]
fn a_record_that_finds_no_block_comes_back_and_fits_after_a_pop(rt: HostRuntime) {
    assert!(rt; takes_after_a_pop(&rt, rt.alloc()));
}

// The fault of the queues that block 0 stops.
fn of_block_0() -> QueueFault {
    QueueFault::Device { number: 0 }
}

// Whether each call of a queue that block 0 has stopped names that block, and the size stays.
fn is_stopped<H: Host>(rt: &H, queue: &mut Queue<MemSlot, Pair>, size: u64) -> bool
where
    H::Dir: Send,
{
    let pushed = refuses(rt, queue, 7, of_block_0());
    let top = queue.top(rt, &OpenGate) == Err(of_block_0());
    let popped = queue.pop(rt, &OpenGate) == Err(of_block_0());
    pushed & top & popped & (queue.size() == size) & (queue.resident() <= 372)
}

// Whether a queue is stopped at this size, and block 0 comes back after these calls.
fn stays_stopped<H: Host>(
    rt: &H,
    mut queue: Queue<MemSlot, Pair>,
    size: u64,
    calls: (u64, u64, u64),
) -> bool
where
    H::Dir: Send,
{
    let mut is_same = true;
    for _ in 0..3 {
        is_same &= is_stopped(rt, &mut queue, size);
    }
    is_same & closes_after(queue, calls)
}

// Whether a failed write stops a queue of two records at the push that stores them.
fn stops_at_the_push<H: Host + Abort>(rt: &H, alloc: Global) -> bool
where
    H::Dir: Send,
{
    let rack = failing(rt, alloc, 1);
    let mut queue = holding(rt, alloc, rack, small(), &[pair(6), pair(5)]);
    refuses(rt, &mut queue, 4, of_block_0()) & stays_stopped(rt, queue, 2, (0, 0, 1))
}

#[test]
fn a_failed_write_stops_the_queue_at_the_push_that_stores(rt: HostRuntime) {
    assert!(rt; stops_at_the_push(&rt, rt.alloc()));
}

// Whether a failed read stops a queue of three records at the pop that loads them.
fn stops_at_the_pop<H: Host + Abort>(rt: &H, alloc: Global) -> bool
where
    H::Dir: Send,
{
    let rack = failing(rt, alloc, 2);
    let mut queue = holding(rt, alloc, rack, small(), &[pair(1), pair(2), pair(3)]);
    let failed = queue.pop(rt, &OpenGate) == Err(of_block_0());
    failed & stays_stopped(rt, queue, 3, (1, 0, 1))
}

#[test]
fn a_failed_read_stops_the_queue_at_the_pop_that_loads(rt: HostRuntime) {
    assert!(rt; stops_at_the_pop(&rt, rt.alloc()));
}

// The keys from 0 to 29, each twice.
fn rising_pairs() -> [Pair; 60] {
    let mut rising = [pair(0); 60];
    for (i, record) in rising.iter_mut().enumerate() {
        record.key = i as u64 / 2;
    }
    rising
}

// Fills an empty queue and empties it, and says whether it gives these records in their order, and all its blocks
// are free again.
fn fills_and_drains<H: Host + Abort>(
    rt: &H,
    queue: &mut Queue<MemSlot, Pair>,
    pushes: &[Pair],
    rising: &[Pair],
) -> bool
where
    H::Dir: Send,
{
    let empty = queue.resident();
    fill(rt, queue, pushes);
    drains(rt, queue, rising) & (queue.resident() == empty)
}

// Whether a queue that is filled ten times gives all of its records each time.
fn gives_ten_times<H: Host + Abort>(rt: &H, queue: &mut Queue<MemSlot, Pair>) -> bool
where
    H::Dir: Send,
{
    let rising = rising_pairs();
    let mut falling = rising;
    falling.reverse();
    let mut is_same = true;
    for _ in 0..5 {
        let first = fills_and_drains(rt, queue, &falling, &rising);
        is_same = is_same & first & fills_and_drains(rt, queue, &rising, &rising);
    }
    is_same
}

// How many writes these blocks had in all.
fn writes_of(blocks: &[MemSlot]) -> u64 {
    let mut writes = 0u64;
    for slot in blocks {
        writes = writes.saturating_add(slot.writes());
    }
    writes
}

// Closes a queue, and says whether 136 blocks come back, with more writes than there are blocks.
fn closes_after_many(queue: Queue<MemSlot, Pair>) -> bool {
    let blocks = queue.close();
    (blocks.len() == 136) & (writes_of(&blocks) > 136)
}

// Whether the blocks of a queue are used again.
fn uses_blocks_again<H: Host + Abort>(rt: &H, alloc: Global) -> bool
where
    H::Dir: Send,
{
    // 60 records have room in 2 * 30 + 72 + 4 = 136 blocks; the budget is 158 and a record a block.
    let sizes = Sizes::new(1, 2, 1, 294, 136);
    let mut queue = holding(rt, alloc, MemRack::new(), sizes, &[]);
    blocks_are_used::<Pair>();
    gives_ten_times(rt, &mut queue) & closes_after_many(queue)
}

#[test]
fn free_blocks_come_back_while_a_queue_is_filled_and_emptied_ten_times(rt: HostRuntime) {
    assert!(rt; uses_blocks_again(&rt, rt.alloc()));
}

// Puts a record into a sorted list, the smallest last.
fn put_sorted(rt: &impl Abort, list: &mut Vec<Pair>, item: Pair) {
    let mut place = 0usize;
    for other in list.as_slice() {
        if *other > item {
            place = place.saturating_add(1);
        }
    }
    let place = place.min(list.len());
    list.insert(place, item).expect(rt, "memory");
}

// Pushes a generated record, and puts it into a sorted list.
fn push_to_both<H: Host + Abort>(
    rt: &H,
    queue: &mut Queue<MemSlot, Pair>,
    list: &mut Vec<Pair>,
    seed: &mut u64,
)
where
    H::Dir: Send,
{
    let key = draw(seed, 20);
    let value = draw(seed, 3);
    let item = Pair { key, value };
    fill(rt, queue, &[item]);
    put_sorted(rt, list, item);
}

// Whether one call of the queue does what the same does on a sorted list, the smallest record last.
fn same_call<H: Host + Abort>(
    rt: &H,
    queue: &mut Queue<MemSlot, Pair>,
    list: &mut Vec<Pair>,
    seed: &mut u64,
    pushes: u64,
) -> bool
where
    H::Dir: Send,
{
    let mut is_same = true;
    if draw(seed, 10) < pushes {
        push_to_both(rt, queue, list, seed);
    } else {
        is_same = queue.top(rt, &OpenGate) == Ok(list.last().copied());
        is_same &= pops(rt, queue, list.pop());
    }
    is_same & (queue.size() == list.len() as u64)
}

// Whether some calls, more pushes than pops, and then pops until queue and list are empty do the same on both.
fn same_calls<H: Host + Abort>(
    rt: &H,
    queue: &mut Queue<MemSlot, Pair>,
    list: &mut Vec<Pair>,
    seed: &mut u64,
) -> bool
where
    H::Dir: Send,
{
    let calls = draw(seed, 100);
    let pushes = 4 + draw(seed, 6);
    let mut is_same = true;
    for call in 0..2 * calls {
        let pushes = if call < calls { pushes } else { 0 };
        is_same &= same_call(rt, queue, list, seed, pushes);
    }
    is_same & (queue.size() == 0)
}

// The sizes of a generated case. With four workers and no buffer in the pool, each run goes to blocks, and two of
// these are loaded ahead. Of so few records no block is read beside a merge.
fn sizes_of(case: u64) -> Option<Sizes> {
    match case % 4 {
        0 => small(),
        1 => Sizes::new(1, 4, 2, 512, 180),
        2 => Sizes::new(3, 3, 1, 500, 200),
        _ => Sizes::new(4, 2, 4, 424, 200),
    }
}

// Whether a queue does as a sorted list in one generated case.
fn does_as_a_list<H: Host + Abort>(rt: &H, alloc: Global, case: u64, seed: &mut u64) -> bool
where
    H::Dir: Send,
{
    let mut queue = holding(rt, alloc, MemRack::new(), sizes_of(case), &[]);
    let is_same = same_calls(rt, &mut queue, &mut Vec::new(alloc), seed);
    let _blocks = queue.close();
    is_same
}

#[test]
fn a_thousand_generated_sequences_do_as_a_sorted_list(rt: HostRuntime) {
    let mut seed = 7;
    for case in 0..1_000u64 {
        assert!(rt; does_as_a_list(&rt, rt.alloc(), case, &mut seed));
    }
}

// Four workers, 2,048 records a block, two blocks a heap, and a budget without a buffer: 104 blocks of records and
// one record a block. So each heap of 4,096 records goes to two blocks, and the ninth is followed by a merge of 8. A
// refill takes 8,192 records, beside which the next blocks are read, and a batch of a merge has as many, beside which
// the one before is written.
fn wide() -> Option<Sizes> {
    Sizes::new(4, 2048, 2, 213192, 200)
}

// Pushes so many generated records, and puts them into a list, the smallest record last.
fn push_many<H: Host + Abort>(
    rt: &H,
    queue: &mut Queue<MemSlot, Pair>,
    list: &mut Vec<Pair>,
    seed: &mut u64,
    count: u64,
)
where
    H::Dir: Send,
{
    for _ in 0..count {
        let key = draw(seed, 5000);
        let value = draw(seed, 3);
        let item = Pair { key, value };
        fill(rt, queue, &[item]);
        list.push(item).expect(rt, "memory");
    }
    sort(list.as_mut_slice());
    list.as_mut_slice().reverse();
}

// Whether so many pops give what a list ends with, the last record first. The list loses it.
fn pops_many<H: Host>(
    rt: &H,
    queue: &mut Queue<MemSlot, Pair>,
    list: &mut Vec<Pair>,
    count: u64,
) -> bool
where
    H::Dir: Send,
{
    let mut is_same = true;
    for _ in 0..count {
        is_same &= pops(rt, queue, list.pop());
    }
    is_same & (queue.size() == list.len() as u64)
}

// Whether eight rounds of pushes and pops, and then pops until queue and list are empty do the same on both.
fn same_rounds<H: Host + Abort>(
    rt: &H,
    queue: &mut Queue<MemSlot, Pair>,
    list: &mut Vec<Pair>,
    seed: &mut u64,
) -> bool
where
    H::Dir: Send,
{
    let mut is_same = true;
    for _ in 0..8 {
        let pushes = draw(seed, 12000);
        let taken = draw(seed, 8000);
        push_many(rt, queue, list, seed, pushes);
        is_same &= pops_many(rt, queue, list, taken);
    }
    let rest = list.len() as u64;
    is_same & pops_many(rt, queue, list, rest) & pops(rt, queue, None) & (queue.size() == 0)
}

// Whether a queue that reads and writes blocks beside its merges does as a sorted list.
fn does_as_a_long_list<H: Host + Abort>(rt: &H, alloc: Global) -> bool
where
    H::Dir: Send,
{
    let mut queue = holding(rt, alloc, MemRack::new(), wide(), &[]);
    let is_same = same_rounds(rt, &mut queue, &mut Vec::new(alloc), &mut 3);
    is_same & closes(queue, 200)
}

#[test]
fn a_long_generated_sequence_by_four_workers_does_as_a_sorted_list(rt: HostRuntime) {
    assert!(rt; does_as_a_long_list(&rt, rt.alloc()));
}

// Whether the storing of a heap with one record goes so, and block 0 comes back so then.
fn stores_heap<H: Host + Abort>(
    rt: &H,
    alloc: Global,
    sizes: Option<Sizes>,
    answer: Result<(), QueueFault>,
    calls: Option<(u64, u64, u64)>,
) -> bool
where
    H::Dir: Send,
{
    let mut queue = holding(rt, alloc, MemRack::new(), sizes, &[pair(4)]);
    let stored = queue.store_heaps(rt, &OpenGate) == answer;
    let drained = drains(rt, &mut queue, &[pair(4)]);
    stored & drained & (calls_of(queue.close().as_slice(), 0) == calls)
}

// Whether heaps are stored where there is a block, and refused where there is none.
fn stores_heaps<H: Host + Abort>(rt: &H, alloc: Global) -> bool
where
    H::Dir: Send,
{
    let none = Sizes::new(1, 2, 1, 158, 0);
    let refused = Err(QueueFault::NoFreeBlock);
    stores_heap(rt, alloc, small(), Ok(()), Some((1, 1, 0)))
        & stores_heap(rt, alloc, none, refused, None)
}

#[test]
fn a_heap_that_is_not_full_is_stored_for_a_limit_session(rt: HostRuntime) {
    assert!(rt; stores_heaps(&rt, rt.alloc()));
}
