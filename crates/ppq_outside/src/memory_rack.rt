//! A device in memory.
ghost use Rattle.std.specs.Prelude.{◌≡◌, ◌↔◌, ◌++◌, [], None, IfOk, IsErrOf, IsTrue};
ghost use Rattle.ppq_outside.specs.Told.{HasCause};
ghost use Rattle.ppq_outside.specs.Plan.{calls_of};
ghost use Rattle.ppq_outside.specs.Made.{made_by};
ghost use Rattle.ppq_outside.specs.MemoryDevice.{numbers_in};

use crate::{Host, MemSlot, OutsideFault, Rack};
use std::alloc::{AllocError, Global};
use std::marker::Model;

// What is to fail.
#[derive(Drop)]
struct Plan {
    // Calls of blocks: a block's number, and the number of its call, from 1.
    calls: Vec<(u32, u64)>,
    // The numbers of the blocks whose making fails.
    makes: Vec<u32>,
}

/// A device in memory. Its slots tell, unless it forges. The making of a block fails exactly where that was
/// planned, and so do the calls of its blocks.
#[derive(Drop)]
pub struct MemRack {
    // The planned failures, where there are any.
    plan: Option<Plan>,
    // Where its blocks forge, the number that their bytes begin with.
    forges: Option<u64>,
    // The numbers of the blocks that it made, in order; no list before the first.
    made: Option<Vec<u32>>,
    // How many calls failed.
    faults: u64,
}

impl Model for MemRack {
    ghost use Rattle.ppq_outside.specs.MemoryDevice.{RackState, calls_in, makes_in, numbers_in};

    ghost Value = { RackState };

    ghost view = { λ r. record { calls = calls_in r.plan; makes = makes_in r.plan; forges = r.forges; made = numbers_in r.made; faults = r.faults } };
}

impl MemRack {
    ghost use Rattle.ppq_outside.specs.MemoryDevice.{fresh_rack, forging_rack, make_fails};

    /// A device of which nothing is planned to fail.
    pub fn new() -> Self
        ensures { result ≡ fresh_rack [] [] }
    {
        MemRack {
            plan: None,
            forges: None,
            made: None,
            faults: 0,
        }
    }

    /// A device whose blocks forge, from this number on, and of which nothing fails: a write answers Ok and
    /// keeps nothing, and a read gives bytes that no write gave it. It does not tell.
    pub fn forging(seed: u64) -> Self
        ensures { result ≡ forging_rack seed }
    {
        MemRack {
            plan: None,
            forges: Some(seed),
            made: None,
            faults: 0,
        }
    }

    /// A device that fails as planned. For each pair of `calls`, the block with that number fails its
    /// call with that number, from 1, reads and writes counted together. The making of each block of
    /// `makes` fails.
    pub fn failing(calls: Vec<(u32, u64)>, makes: Vec<u32>) -> Self
        ensures { result ≡ fresh_rack calls.items makes.items }
    {
        MemRack {
            plan: Some(Plan { calls, makes }),
            forges: None,
            made: None,
            faults: 0,
        }
    }

    /// The numbers of the blocks that it made, in order.
    pub fn made(&self) -> &[u32]
        ensures { result.now ≡ self.now.made }
    {
        match &self.made {
            None => &[],
            Some(numbers) => numbers,
        }
    }

    // Whether the making of a block is to fail.
    fn fails(&self, number: u32) -> bool
        ensures { result ≡ make_fails self.now number }
    {
        match &self.plan {
            None => false,
            Some(plan) => plan.makes.as_slice().contains(&number),
        }
    }

    // The numbers of the calls of a block that are to fail.
    fn plan_of(&self, alloc: Global, number: u32) -> Result<Vec<u64>, AllocError>
        ensures { IfOk result (λ plan. plan.items ≡ calls_of self.now.calls number) }
    {
        match &self.plan {
            None => Ok(Vec::new(alloc)),
            Some(plan) => calls_of_block(alloc, &plan.calls, number),
        }
    }
}

// Of pairs of a block's number and the number of a call, the calls of one block.
fn calls_of_block(alloc: Global, calls: &[(u32, u64)], number: u32) -> Result<Vec<u64>, AllocError>
    ensures { IfOk result (λ plan. plan.items ≡ calls_of calls.now number) }
{
    let mut plan = Vec::new(alloc);
    for (block, call) in calls {
        if *block == number {
            plan.push(*call)?;
        }
    }
    Ok(plan)
}

// A list of numbers with one more, which is made where there is none. If an allocation fails, it is
// as before.
fn add_number(alloc: Global, numbers: &mut Option<Vec<u32>>, number: u32) -> Result<(), AllocError>
    ensures { numbers_in numbers.new ≡ numbers_in numbers.old ++ made_by result number }
{
    match numbers {
        None => {
            let mut first = Vec::new(alloc);
            first.push(number)?;
            *numbers = Some(first);
        }
        Some(numbers) => numbers.push(number)?,
    }
    Ok(())
}

impl Rack for MemRack {
    type Slot = MemSlot;

    ghost use Rattle.ppq_outside.specs.MemoryDevice.{zero_slot, make_fails, after_make};

    ghost tells = { λ r. r.forges ≡ None };

    ghost made = { λ r device numbers. r.made ≡ numbers };

    ghost faults = { λ r. r.faults };

    fn faults(&self) -> u64 {
        self.faults
    }

    /// A slot that holds so many zeros, or forges as the rack does. It fails exactly where that was planned; the only other answer
    /// is want of memory.
    fn block<H: Host>(
        &mut self,
        _rt: &H,
        alloc: Global,
        _device: &str,
        number: u32,
        bytes: usize,
    ) -> Result<MemSlot, OutsideFault>
        ensures slot { IfOk result (λ slot. slot ≡ zero_slot number bytes (calls_of self.old.calls number) self.old.forges) }
        ensures failed { IsErrOf result OutsideFault.Failed ↔ IsTrue (make_fails self.old number) }
        ensures after { self.new ≡ after_make self.old result number }
        ensures cause { HasCause self.old.faults self.new.faults result }
    {
        if self.fails(number) {
            self.faults = self.faults.saturating_add(1);
            return Err(OutsideFault::Failed);
        }
        let plan = self.plan_of(alloc, number)?;
        let slot = MemSlot::zeros(alloc, number, bytes, plan, self.forges)?;
        add_number(alloc, &mut self.made, number)?;
        Ok(slot)
    }
}
