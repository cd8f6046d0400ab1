//! Records and queues of the tests: pairs, in blocks in memory.
ghost use Rattle.std.specs.Prelude.{◌≡◌, Some, IfOk};

use ppq_outside::{MemRack, MemSlot, OpenGate};
use ppq_session::{Host, Pair, Queue, Record, Sizes};
use ppq_testkit::{opened, pair, pushed};
use std::alloc::Global;
use std::process::Abort;
use std::test::Fail;

/// Adds the records with the keys from one to another, which is not among them.
pub fn add_keys<H: Abort>(rt: &H, records: &mut Vec<Pair>, from: u64, to: u64) {
    for key in from..to {
        records.push(pair(key)).expect(rt, "room for a record");
    }
}

/// The records with the keys from one to another, which is not among them.
pub fn keys<H: Abort>(rt: &H, alloc: Global, from: u64, to: u64) -> Vec<Pair> {
    let mut records = Vec::new(alloc);
    add_keys(rt, &mut records, from, to);
    records
}

/// A queue of these sizes to which these records were pushed.
pub fn queue_of<H: Host>(
    rt: &H,
    alloc: Global,
    sizes: Sizes,
    records: Vec<Pair>,
) -> Result<Queue<MemSlot, Pair>, Fail>
where
    H::Dir: Send,
    ensures { IfOk result (λ queue. queue.sizes ≡ sizes) }
{
    let queue = opened(rt, alloc, &mut MemRack::new(), Some(sizes))?;
    pushed(rt, queue, records.as_slice())
}

/// All records of a queue, of which it has at most 204,800, in the order in which it pops them.
pub fn popped<H: Host + Abort, R: Record + Send + Sync>(
    rt: &H,
    alloc: Global,
    queue: Queue<MemSlot, R>,
) -> Vec<R>
where
    H::Dir: Send,
{
    let mut queue = queue;
    let size = queue.size();
    let mut records = Vec::new(alloc);
    'popping: for _ in 0..204801 {
        let Some(record) = queue.pop(rt, &OpenGate).expect(rt, "a pop") else {
            break;
        };
        records.push(record).expect(rt, "room for a record");
    }
    assert!(rt; (records.len() as u64 == size) & (queue.size() == 0));
    let _slots = queue.close();
    records
}

/// Whether these are the records with the keys from one to another, which is not among them, in order.
pub fn are_keys(records: &[Pair], from: u64, to: u64) -> bool {
    let mut key = from;
    for record in records {
        if *record != pair(key) {
            return false;
        }
        key = key.saturating_add(1);
    }
    key == to
}

/// Whether these are two records of each key from 0 to another, which is not among them, in order: first with the value
/// 0, then with this one.
pub fn are_twins(records: &[Pair], to: u64, value: u64) -> bool {
    let mut at = 0u64;
    for record in records {
        let value = if at % 2 == 0 { 0 } else { value };
        if *record != (Pair { key: at / 2, value }) {
            return false;
        }
        at = at.saturating_add(1);
    }
    at == to.saturating_mul(2)
}

/// Whether each record is after the one in front of it.
pub fn ascend(records: &[Pair]) -> bool {
    let mut last = None;
    for record in records {
        if Some(*record) <= last {
            return false;
        }
        last = Some(*record);
    }
    true
}
