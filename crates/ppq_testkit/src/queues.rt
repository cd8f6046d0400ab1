//! Queues over a device in memory.
ghost use Rattle.std.specs.Prelude.{◌≡◌, Some, IfOk};

use crate::blocks_of;
use ppq_budget::Sizes;
use ppq_outside::{Host, MemRack, MemSlot, OpenGate, Slot};
use ppq_queue::Queue;
use ppq_record::{Pair, Record};
use std::alloc::Global;
use std::test::Fail;

/// An empty queue of these sizes over the blocks of a device in memory. It fails where a number was out of range.
pub fn opened<H: Host>(
    rt: &H,
    alloc: Global,
    rack: &mut MemRack,
    sizes: Option<Sizes>,
) -> Result<Queue<MemSlot, Pair>, Fail>
    ensures { IfOk result (λ queue. sizes ≡ Some queue.sizes) }
{
    let sizes = sizes.ok_or("a number is out of range")?;
    let slots = blocks_of::<H, Pair>(rt, alloc, rack, sizes)?;
    match Queue::open(alloc, sizes, slots) {
        Ok(queue) => Ok(queue),
        Err(_) => Err(Fail::from("the queue was not opened")),
    }
}

/// A queue to which these records were pushed too. It fails where a push was refused.
pub fn pushed<H: Host, S: Slot + Send + Sync, R: Record + Send + Sync>(
    rt: &H,
    queue: Queue<S, R>,
    records: &[R],
) -> Result<Queue<S, R>, Fail>
where
    H::Dir: Send,
    ensures { IfOk result (λ after. after.sizes ≡ queue.sizes) }
{
    let mut queue = queue;
    let mut refused = false;
    'pushing: for r in records {
        refused |= queue.push(rt, *r, &OpenGate).is_err();
    }
    if refused {
        let _slots = queue.close();
        return Err(Fail::from("a push was refused"));
    }
    Ok(queue)
}
