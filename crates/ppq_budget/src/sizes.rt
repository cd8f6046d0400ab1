//! The five numbers from which a queue's sizes follow.
ghost use Rattle.std.specs.Prelude.{◌≡◌, ℕ, ◌+◌, ◌-◌, ◌*◌, ◌^◌, ◌<◌, ◌≤◌, ◌↔◌, IsSome, IsErr, IfSome, IfOk, IfErr};
ghost use Rattle.ppq_budget.specs.Sizes.{Numbers, numbers, AreInRange, heap_of, batch_of, fixed_of, lane_buffers, blocks_for, room_of, pool_of, ArePartsOfFixed};

use crate::{FAN, MOST_RUNS, TooSmall};
use std::marker::Model;

/// The sizes of a queue. Each number is in its range.
#[derive(Clone, Copy, Debug, PartialEq, Eq)]
pub struct Sizes {
    // how many workers merge, and how many passes a session has
    workers: u32,
    // records in a block
    block: u32,
    // blocks in an insertion heap
    heap: u32,
    // the budget, in records
    memory: u64,
    // blocks of the device
    blocks: u32,
}

impl Model for Sizes {
    ghost use Rattle.ppq_budget.specs.Sizes.{Numbers, numbers, AreInRange};

    ghost Value = { Numbers };

    ghost view = { λ s. numbers s.workers s.block s.heap s.memory s.blocks };

    ghost invariant = { λ s. AreInRange (numbers s.workers s.block s.heap s.memory s.blocks) };

    ghost inverse = { λ n. record { workers = n.workers; block = n.block; heap = n.heap; memory = n.memory; blocks = n.blocks } };
}

impl Sizes {
    /// The sizes of a queue for so many workers (1 to 64), with so many records a block (2 to 65,536),
    /// blocks a heap (1 to 64), records of budget (0 to 268,435,456) and blocks of the device (0 to
    /// 65,536). None is returned if and only if a number is out of its range.
    pub fn new(workers: u32, block: u32, heap: u32, memory: u64, blocks: u32) -> Option<Self>
        ensures valid { IsSome result ↔ AreInRange (numbers workers block heap memory blocks) }
        ensures same { IfSome result (λ s. s ≡ numbers workers block heap memory blocks) }
    {
        let fits = (1..=64).contains(&workers)
            && (2..=65_536).contains(&block)
            && (1..=64).contains(&heap)
            && memory <= 268_435_456
            && blocks <= 65_536;
        if fits {
            Some(Sizes {
                workers,
                block,
                heap,
                memory,
                blocks,
            })
        } else {
            None
        }
    }

    /// How many workers merge, and how many passes a session has.
    #[inline]
    pub fn workers(&self) -> u32
        ensures same { result ≡ self.now.workers }
        ensures range { AreInRange self.now }
    {
        self.workers
    }

    /// How many records a block holds.
    #[inline]
    pub fn block(&self) -> u32
        ensures same { result ≡ self.now.block }
        ensures range { AreInRange self.now }
    {
        self.block
    }

    /// How many blocks an insertion heap holds.
    #[inline]
    pub fn heap(&self) -> u32
        ensures same { result ≡ self.now.heap }
        ensures range { AreInRange self.now }
    {
        self.heap
    }

    /// The budget, in records.
    #[inline]
    pub fn memory(&self) -> u64
        ensures same { result ≡ self.now.memory }
        ensures range { AreInRange self.now }
    {
        self.memory
    }

    /// How many blocks the device has.
    #[inline]
    pub fn blocks(&self) -> u32
        ensures same { result ≡ self.now.blocks }
        ensures range { AreInRange self.now }
    {
        self.blocks
    }

    /// How many records an insertion heap holds: at most 4,194,304.
    #[inline]
    pub fn heap_records(&self) -> u32
        ensures same { result ≡ heap_of self.now }
        ensures range { AreInRange self.now }
    {
        self.heap * self.block
    }

    /// A block of records for each worker, at most 4,194,304 records: what one round of merging gives,
    /// and what each buffer of a round holds.
    #[inline]
    pub fn batch(&self) -> u32
        ensures same { result ≡ batch_of self.now }
        ensures range { AreInRange self.now }
    {
        self.workers * self.block
    }

    /// How many buffers a queue has for loaded blocks, for lanes and for blocks that are read ahead: one for each run
    /// in blocks and for each input of a merge, and three for each worker.
    #[inline]
    pub fn lane_buffers(&self) -> u32
        ensures same { result ≡ lane_buffers self.now }
        ensures range { AreInRange self.now }
    {
        MOST_RUNS + FAN + 3 * self.workers
    }

    /// How many records of the budget a queue takes whatever it holds: its heaps, its buffers of fixed
    /// size and the first record of each device block. `fixed_parts` tells the parts.
    pub fn fixed(&self) -> u64
        ensures { result ≡ fixed_of self.now }
    {
        let workers = u64::from(self.workers);
        let buffers = workers * u64::from(self.heap) + 6 * workers + u64::from(MOST_RUNS + FAN);
        u64::from(self.block) * buffers + u64::from(self.blocks)
    }

    /// How many buffers of a block each the budget leaves for the pool, at most 65,536. The answer is
    /// TooSmall exactly where the budget is below the fixed part, which it then names.
    pub fn pool(&self) -> Result<u32, TooSmall>
        ensures too_small { IsErr result ↔ (self.now.memory < fixed_of self.now) }
        ensures need { IfErr result (λ e. e.need ≡ fixed_of self.now) }
        ensures buffers { IfOk result (λ n. n ≡ pool_of self.now) }
        ensures budget { IfOk result (λ n. fixed_of self.now + n * self.now.block ≤ self.now.memory) }
        ensures most { IfOk result (λ n. (k : ℕ) → k ≤ 65536 → fixed_of self.now + k * self.now.block ≤ self.now.memory → k ≤ n) }
    {
        let fixed = self.fixed();
        if self.memory < fixed {
            return Err(TooSmall { need: fixed });
        }
        let buffers = (self.memory - fixed) / u64::from(self.block);
        Ok(buffers.min(65_536) as u32)
    }

    /// How many blocks so many records fill, the last perhaps in part: the smallest number of blocks that
    /// hold them.
    #[inline]
    pub fn blocks_for(&self, load: u64) -> u64
        requires { load ≤ 2 ^ 56 }
        ensures same { result ≡ blocks_for self.now load }
        ensures enough { load ≤ result * self.now.block }
        ensures least { (k : ℕ) → load ≤ k * self.now.block → result ≤ k }
    {
        load.div_ceil(u64::from(self.block))
    }

    /// How many blocks of a device are enough for a load of so many records: twice the blocks that they
    /// fill, 72 for the blocks in part that runs end with, and four for each worker.
    pub fn room(&self, load: u64) -> u64
        requires { load ≤ 2 ^ 56 }
        ensures { result ≡ room_of self.now load }
    {
        2 * self.blocks_for(load) + u64::from(MOST_RUNS + FAN) + 4 * u64::from(self.workers)
    }
}

/// The parts of the fixed part of the budget, as a clause for the proof of whoever calls it, and for a
/// reader. It does nothing.
#[inline]
pub fn fixed_parts()
    ensures { (n : Numbers) → ArePartsOfFixed n }
{}
