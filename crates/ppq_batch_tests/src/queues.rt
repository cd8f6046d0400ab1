//! Queues in memory, filled before a session and emptied after it.
ghost use Rattle.std.specs.Prelude.{◌≡◌, Some};

use ppq_budget::Sizes;
use ppq_load::Queue;
use ppq_outside::{Host, MemRack, MemSlot, OpenGate};
use ppq_record::Pair;
use ppq_testkit::{opened, pair, pushed};
use std::alloc::Global;
use std::process::Abort;

// The pairs with these keys and the value 0.
pub(crate) fn pairs<H: Abort>(rt: &H, alloc: Global, keys: &[u64]) -> Vec<Pair> {
    let mut pairs = Vec::new(alloc);
    for key in keys {
        pairs.push(pair(*key)).expect(rt, "no memory");
    }
    pairs
}

// A queue of these sizes with records of these keys, over the blocks of a device in memory.
pub(crate) fn filled<H: Host + Abort>(
    rt: &H,
    alloc: Global,
    rack: &mut MemRack,
    sizes: Option<Sizes>,
    keys: &[u64],
) -> Queue<MemSlot, Pair>
where
    H::Dir: Send,
    ensures { sizes ≡ Some result.sizes }
{
    let empty = match opened(rt, alloc, rack, sizes) {
        Ok(queue) => queue,
        Err(_) => panic!(rt; "the queue was not opened"),
    };
    match pushed(rt, empty, &pairs(rt, alloc, keys)) {
        Ok(queue) => queue,
        Err(_) => panic!(rt; "a push was refused"),
    }
}

// The records of a queue in the order in which they are popped, up to a pop that fails.
pub(crate) fn popped<H: Host + Abort>(
    rt: &H,
    alloc: Global,
    queue: Queue<MemSlot, Pair>,
) -> Vec<Pair>
where
    H::Dir: Send,
{
    let mut queue = queue;
    let mut records = Vec::new(alloc);
    for _ in 0..queue.size() {
        if let Ok(Some(record)) = queue.pop(rt, &OpenGate) {
            records.push(record).expect(rt, "no memory");
        }
    }
    let _slots = queue.close();
    records
}
