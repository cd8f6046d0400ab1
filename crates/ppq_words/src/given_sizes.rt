//! The sizes of a queue, before it is known how wide its records are.
ghost use Rattle.std.specs.Prelude.{◌≡◌, ◌≤◌};
ghost use Rattle.ppq_words.specs.Given.{given_as};
ghost use Rattle.ppq_words.specs.Reading.{in_range, sizes_for, half_sizes_for};

use crate::BudgetUnit;
use ppq_budget::Sizes;
use std::marker::Model;

/// The sizes of a queue as the arguments give them: the budget is in its unit. Each number is in its
/// range.
#[derive(Clone, Copy, Debug, PartialEq, Eq)]
pub struct GivenSizes {
    workers: u32,
    block: u32,
    heap: u32,
    // the budget, in its unit
    budget: u64,
    unit: BudgetUnit,
    blocks: u32,
}

impl Model for GivenSizes {
    ghost use Rattle.ppq_budget.specs.Sizes.{numbers};
    ghost use Rattle.ppq_words.specs.Given.{Given, given_as, AreGivenInRange};

    ghost Value = { Given };

    ghost view = { λ s. given_as s.workers s.block s.heap (s.budget, s.unit) s.blocks };

    ghost invariant = { λ s. AreGivenInRange (given_as s.workers s.block s.heap (s.budget, s.unit) s.blocks) };

    ghost inverse = { λ g. record { workers = g.numbers.workers; block = g.numbers.block; heap = g.numbers.heap; budget = g.numbers.memory; unit = g.unit; blocks = g.numbers.blocks } };
}

impl GivenSizes {
    /// The sizes of a queue for so many workers, records a block and blocks a heap, with a budget in its
    /// unit, and so many blocks of the device. None is returned if and only if a number is out of its range:
    /// `Sizes::new` has those of the four, and `BudgetUnit::largest` that of the budget.
    pub fn new(
        workers: u32,
        block: u32,
        heap: u32,
        budget: (u64, BudgetUnit),
        blocks: u32,
    ) -> Option<Self>
        ensures { result ≡ in_range (given_as workers block heap budget blocks) }
    {
        let (budget, unit) = budget;
        let _others = Sizes::new(workers, block, heap, 0, blocks)?;
        if budget > unit.largest() {
            return None;
        }
        Some(GivenSizes {
            workers,
            block,
            heap,
            budget,
            unit,
            blocks,
        })
    }

    /// How many workers merge, and how many passes a session has.
    pub fn workers(&self) -> u32
        ensures { result ≡ self.now.numbers.workers }
    {
        self.workers
    }

    /// The unit in which the budget is given.
    pub fn unit(&self) -> BudgetUnit
        ensures { result ≡ self.now.unit }
    {
        self.unit
    }

    /// The sizes of a queue of records of this width, in bytes, which is at least 16. Of a budget in bytes
    /// there are as many records as fit.
    pub fn for_width(&self, width: u64) -> Sizes
        requires { 16 ≤ width }
        ensures { result ≡ sizes_for width self.now }
    {
        let memory = self.unit.records(self.budget, width);
        Sizes::new(self.workers, self.block, self.heap, memory, self.blocks).unwrap()
    }

    /// The sizes of each of two queues that share the budget and the device, for records of this width in
    /// bytes, which is at least 16. Each has half of the budget's records and half of the blocks, both
    /// rounded down; the other numbers are those of `for_width`.
    pub fn half_for_width(&self, width: u64) -> Sizes
        requires { 16 ≤ width }
        ensures { result ≡ half_sizes_for width self.now }
    {
        let memory = self.unit.records(self.budget, width) / 2;
        let blocks = self.blocks / 2;
        Sizes::new(self.workers, self.block, self.heap, memory, blocks).unwrap()
    }
}
