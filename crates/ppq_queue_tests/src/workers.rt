//! How the workers share what a queue merges: all that is merged at once is one merge, by all of them.
use crate::queue::{closes, holding};
use ppq_budget::Sizes;
use ppq_outside::{Host, MemRack, MemSlot};
use ppq_queue::Queue;
use ppq_record::Pair;
use ppq_testkit::{PairGate, pair};
use std::alloc::Global;
use std::process::Abort;

// Pushes the keys from 0 to 56,700 in a mixed order, and pops the smallest one, each through a gate of its own.
fn push_and_pop<H: Host + Abort>(
    rt: &H,
    queue: &mut Queue<MemSlot, Pair>,
    pushes: &PairGate,
    pop: &PairGate,
)
where
    H::Dir: Send,
{
    'pushing: for i in 0..56701u64 {
        assert!(rt; queue.push(rt, pair(i * 7919 % 56701), pushes).is_ok());
    }
    assert!(rt; queue.pop(rt, pop) == Ok(Some(pair(0))));
}

// Whether so many workers entered a gate, 0 and 1 of them together.
fn was_entered(gate: &PairGate, workers: u64) -> bool {
    gate.is_passed() & (gate.entered() == workers)
}

// Whether both workers merge in each batch of a level and in a refill.
fn both_merge<H: Host + Abort>(rt: &H, alloc: Global) -> bool
where
    H::Dir: Send,
{
    // Two workers, and 6,300 records a block, so that a batch of two blocks has a piece for each: of eight runs one
    // of 6,208 records or more. With no buffer in the pool each heap of a block goes to a block, and the ninth is
    // followed by a merge of 8.
    let sizes = Sizes::new(2, 6300, 1, 86 * 6300 + 100, 100);
    let mut queue = holding(rt, alloc, MemRack::new(), sizes, &[]);
    let (pushes, pop) = (PairGate::new(), PairGate::new());
    push_and_pop(rt, &mut queue, &pushes, &pop);
    // 8 blocks in batches of two, and one refill
    closes(queue, 100) & was_entered(&pushes, 2 * 4) & was_entered(&pop, 2)
}

#[test]
fn a_batch_of_a_level_and_a_refill_are_one_merge_by_both_workers(rt: HostRuntime) {
    assert!(rt; both_merge(&rt, rt.alloc()));
}
