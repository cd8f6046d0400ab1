//! The buffers and jobs of whoever writes and reads blocks.
ghost use Rattle.std.specs.Prelude.{◌≡◌, ◌-◌, ◌^◌, ◌<◌, [], length, replicate, All, IfOk, vec_capacity};
ghost use Rattle.ppq_block.specs.Block.{holding};

use crate::Job;
use ppq_block::{BlockBuf, BufList, Memory, Record, record_laws};
use ppq_outside::Slot;
use std::alloc::Global;

/// What an owner of runs needs to transfer blocks and to merge: buffers, jobs, and a batch of records.
#[derive(Drop)]
pub struct Lanes<S: Slot, R: Record> {
    /// Buffers that no job has.
    pub idle: BufList<R>,
    /// Jobs that are to be done or were just done. Between the calls of a queue there is none.
    pub jobs: Vec<Job<S, R>>,
    /// Records that merges write over; what stands in it has no meaning between calls.
    pub batch: Vec<R>,
}

impl<S: Slot, R: Record> Lanes<S, R> {
    /// So many idle empty buffers for `block` records each, an empty list with room for just so many jobs, and
    /// a batch of so many records whose bytes are zeros. `Err` is returned only if an allocation failed.
    pub fn new(
        alloc: Global,
        buffers: u32,
        jobs: u32,
        block: u32,
        batch: u32,
    ) -> Result<Self, Memory>
        requires { buffers < 2 ^ 32 - 1 }
        ensures idle { IfOk result (λ l. length l.idle ≡ buffers) }
        ensures empty { IfOk result (λ l. All (λ b. b ≡ holding block []) l.idle) }
        ensures no_job { IfOk result (λ l. l.jobs.items ≡ []) }
        ensures room { IfOk result (λ l. vec_capacity l.jobs ≡ jobs) }
        ensures batch { IfOk result (λ l. l.batch.items ≡ replicate batch (R.record_of (replicate R.WIDTH 0))) }
    {
        let idle = idle_buffers(alloc, block, buffers)?;
        let jobs = Vec::with_capacity(alloc, jobs as usize)?;
        let batch = zero_records(alloc, batch)?;
        Ok(Lanes { idle, jobs, batch })
    }
}

// So many empty buffers for `block` records each.
fn idle_buffers<R: Record>(alloc: Global, block: u32, buffers: u32) -> Result<BufList<R>, Memory>
    requires { buffers < 2 ^ 32 - 1 }
    ensures length { IfOk result (λ idle. length idle ≡ buffers) }
    ensures empty { IfOk result (λ idle. All (λ b. b ≡ holding block []) idle) }
{
    let mut idle = BufList::empty();
    for _count in 0..buffers {
        idle.push_back(BlockBuf::new(alloc, block)?);
    }
    Ok(idle)
}

// So many records whose bytes are zeros.
fn zero_records<R: Record>(alloc: Global, count: u32) -> Result<Vec<R>, Memory>
    ensures { IfOk result (λ all. all.items ≡ replicate count (R.record_of (replicate R.WIDTH 0))) }
{
    record_laws::<R>();
    let zeros = vec![in alloc; 0; R::WIDTH]?;
    let zero = R::take(&zeros);
    let mut all = Vec::with_capacity(alloc, count as usize)?;
    for _at in 0..count {
        all.push(zero)?;
    }
    Ok(all)
}
