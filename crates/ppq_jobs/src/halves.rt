//! The blocks of two queues.
ghost use Rattle.std.specs.Prelude.{◌≡◌, ◌≤◌, ◌+◌, ◌*◌, ◌++◌, [], length, min, vec_capacity, IfOk};

use ppq_engine::Memory;
use ppq_sweep::Slot;
use std::alloc::Global;

// Lists for the blocks of a second queue, and for those of both when they come back. The memory for them is allocated
// once.
#[derive(Drop)]
pub(crate) struct Halves<S: Slot> {
    pub(crate) second: Vec<S>,
    pub(crate) all: Vec<S>,
}

impl<S: Slot> Halves<S> {
    // Empty lists for so many blocks of each queue. `Err` only if an allocation fails.
    pub(crate) fn new(alloc: Global, blocks: u32) -> Result<Halves<S>, Memory>
        requires { blocks ≤ 65536 }
        ensures empty { IfOk result (λ halves. (halves.second.items ≡ []) × (halves.all.items ≡ [])) }
        ensures room { IfOk result (λ halves. (blocks ≤ vec_capacity halves.second) × (2 * blocks ≤ vec_capacity halves.all)) }
    {
        let half = blocks as usize;
        let second = Vec::with_capacity(alloc, half)?;
        let all = Vec::with_capacity(alloc, 2 * half)?;
        Ok(Halves { second, all })
    }
}

// Moves the blocks of a list after the first `half` of them to an empty one, which has room for them.
pub(crate) fn split<S: Slot>(blocks: Vec<S>, second: Vec<S>, half: usize) -> (Vec<S>, Vec<S>)
    requires empty { second.items ≡ [] }
    requires room { length blocks.items ≤ half + vec_capacity second }
    ensures all { result.0.items ++ result.1.items ≡ blocks.items }
    ensures first { length result.0.items ≡ min half (length blocks.items) }
{
    let mut first = blocks;
    let mut second = second;
    'moving: while half < first.len() {
        let Some(block) = first.pop() else {
            return (first, second);
        };
        second.push_reserved(block);
    }
    second.as_mut_slice().reverse();
    (first, second)
}

// Moves the blocks of two lists to an empty one, which has room for them.
pub(crate) fn together<S: Slot>(all: Vec<S>, first: Vec<S>, second: Vec<S>) -> Vec<S>
    requires empty { all.items ≡ [] }
    requires room { length first.items + length second.items ≤ vec_capacity all }
    ensures { result.items ≡ first.items ++ second.items }
{
    let mut all = all;
    let mut first = first;
    let mut second = second;
    // There is room, so neither is refused.
    let _first = all.append(&mut first);
    let _second = all.append(&mut second);
    all
}
