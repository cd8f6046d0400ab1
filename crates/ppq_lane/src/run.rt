//! Running jobs.
ghost use Rattle.std.specs.Prelude.{◌≡◌, ◌*◌, ◌≤◌, All};
ghost use Rattle.std.specs.List.{AllZip};
ghost use Rattle.ppq_lane.specs.Jobs.{MayRun, IsDone, IsReadInto};

use crate::{Job, JobKind};
use ppq_block::{BlockBuf, Record};
use ppq_outside::{Failed, Host, Slot};

/// Runs jobs, one after the other on the calling thread: the slot of each is called once, and `done`
/// says what it returned. Slots and buffers stay in their jobs. It costs one block transfer a job.
///
/// A buffer that was written is as before, also where the write failed. A buffer that was read into
/// holds the block's records; where the read failed, it is empty.
pub fn run_jobs<H: Host, S: Slot, R: Record>(rt: &H, jobs: &mut [Job<S, R>])
    requires { All (MayRun R.WIDTH S.shown) jobs.old }
    ensures { AllZip (IsDone R.bytes_of R.record_of R.WIDTH S.shown) jobs.old jobs.new }
{
    for job in jobs.iter_mut() {
        run_job(rt, job);
    }
}

/// Runs one job, as [`run_jobs`] does: one block transfer.
pub fn run_job<H: Host, S: Slot, R: Record>(rt: &H, job: &mut Job<S, R>)
    requires { MayRun R.WIDTH S.shown job.old }
    ensures { IsDone R.bytes_of R.record_of R.WIDTH S.shown job.old job.new }
{
    match job.kind {
        JobKind::Write => {
            let answer = job.slot.write(rt, job.buf.bytes());
            job.done = Some(answer);
        }
        JobKind::Read { count } => {
            let answer = read_into(rt, &mut job.slot, &mut job.buf, count);
            job.done = Some(answer);
        }
    }
}

// Reads a block of so many records into a buffer. Where the read fails, the buffer is empty.
fn read_into<H: Host, S: Slot, R: Record>(
    rt: &H,
    slot: &mut S,
    buf: &mut BlockBuf<R>,
    count: u32,
) -> Result<(), Failed>
    requires size { buf.old.block * R.WIDTH ≡ (S.shown slot.old).size }
    requires fits { count ≤ buf.old.block }
    ensures { IsReadInto R.record_of R.WIDTH count result (S.shown slot.old) (S.shown slot.new) buf.old buf.new }
{
    let bytes = buf.bytes_mut();
    let answer = slot.read(rt, bytes);
    match answer {
        Ok(()) => buf.refill(count),
        Err(_) => buf.clear(),
    }
    answer
}
