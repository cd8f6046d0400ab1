//! Transfers of blocks, and the buffers of whoever makes them.
//!
//! A [`Job`] is one call of one slot with one buffer: a write of the buffer's bytes, or a read into it.
//! Slot and buffer are moved into the job and come out of it when it is done, so a job needs no
//! reference to the queue that it works for. [`run_jobs`] runs jobs, one block transfer each, and
//! [`overlap`] and [`overlap_mut`] run them on a thread of their own, beside other work. [`Lanes`] keeps
//! what an owner of runs needs for its transfers: idle buffers, a list with room for its jobs, and a batch
//! of records that merges write into. Only `Lanes::new` allocates.
#![tactic(auto)]

mod beside;
mod job;
mod lanes;
mod run;

pub use beside::{Work, overlap, overlap_mut};
pub use job::{Job, JobKind};
pub use lanes::Lanes;
pub use run::{run_job, run_jobs};
