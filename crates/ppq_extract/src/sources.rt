//! What refills need besides the runs.
ghost use Rattle.std.specs.Prelude.{◌≡◌, ◌+◌, ◌≤◌, IfOk, length};
ghost use Rattle.ppq_budget.specs.Sizes.{fixed_of, pool_of};
ghost use Rattle.ppq_extract.specs.Extracted.{ServesFor};

use ppq_budget::{FAN, MOST_RUNS, Sizes};
use ppq_fetch::{Bench, Memory, Record};
use std::alloc::Global;

/// The bench of the workers, and a place for each run, for the merges of refills. Other merges may use
/// the bench between refills; and the bench of a second merge of a level that runs beside one of them.
#[derive(Drop)]
pub struct Sources<R: Record> {
    /// What merges by all workers need.
    pub bench: Bench<R>,
    /// A place for each run; what stands in it has no meaning between refills.
    pub places: Vec<u64>,
    /// What a merge of 8 runs by one worker needs.
    pub second: Bench<R>,
}

impl<R: Record> Sources<R> {
    /// For as many workers as the sizes say, and for as many runs as there can be: the buffers of the
    /// pool, and 65 in blocks. `Err` only if an allocation failed.
    pub fn new(alloc: Global, sizes: &Sizes) -> Result<Self, Memory>
        requires { fixed_of sizes.now ≤ sizes.now.memory }
        ensures workers { IfOk result (λ s. s.bench.workers ≡ sizes.now.workers) }
        ensures runs { IfOk result (λ s. ServesFor (pool_of sizes.now + 65) s) }
    {
        let runs = match sizes.pool() {
            Ok(pool) => pool + MOST_RUNS + 1,
            Err(_) => unreachable!(),
        };
        let bench = Bench::new(alloc, sizes.workers(), runs)?;
        let places = vec![in alloc; 0; runs as usize]?;
        let second = Bench::new(alloc, 1, FAN)?;
        Ok(Sources {
            bench,
            places,
            second,
        })
    }
}
