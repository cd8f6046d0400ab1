//! Jobs beside other work.
ghost use Rattle.std.specs.Prelude.{◌≡◌, All};
ghost use Rattle.std.specs.List.{AllZip};
ghost use Rattle.ppq_lane.specs.Jobs.{MayRun, IsDone};
ghost use Rattle.ppq_lane.specs.Waiting.{SomeWith, GaveOnce};

use crate::{Job, run_jobs};
use ppq_block::Record;
use ppq_outside::{Host, Slot};
use std::thread::join_mut;

/// Work that is done once, beside jobs.
pub trait Work: Send {
    /// What it returns.
    type Out: Send;

    /// When it may be done.
    ghost may_work: { Self → Type 0 };

    /// Which results it may return.
    ghost gives: { Self → Self.Out → Type 0 };

    /// Does it.
    fn work(self) -> Self::Out
        requires { may_work self }
        ensures { gives self result };
}

/// Runs jobs on a thread of their own, one after the other, and the work meanwhile on the calling thread.
/// Both are done when it returns. Where no thread can be started, the jobs are run after the work. It costs
/// the start of a thread, and one block transfer a job.
///
/// The slot of each job is called once, as [`run_jobs`] says, and the result is the work's own.
pub fn overlap<H: Host, S: Slot + Send, R: Record + Send, W: Work + Drop>(
    rt: &H,
    jobs: &mut [Job<S, R>],
    work: W,
) -> W::Out
where
    H::Dir: Send,
    requires jobs { All (MayRun R.WIDTH S.shown) jobs.old }
    requires work { W.may_work work }
    ensures jobs { AllZip (IsDone R.bytes_of R.record_of R.WIDTH S.shown) jobs.old jobs.new }
    ensures work { W.gives work result }
{
    let mut waiting = Some(work);
    let mut once = || -> W::Out
        requires { SomeWith W.may_work waiting }
        ensures { GaveOnce W.gives waiting.entry result }
    {
        match waiting.take() {
            Some(work) => work.work(),
            None => unreachable!(),
        }
    };
    overlap_mut(rt, jobs, &mut once)
}

/// As [`overlap`], with a closure that is lent as the work. It may borrow, also what cannot be sent to
/// another thread, and what it leaves in its captures is known afterwards.
pub fn overlap_mut<H: Host, S: Slot + Send, R: Record + Send, F: FnMut() -> A, A>(
    rt: &H,
    jobs: &mut [Job<S, R>],
    work: &mut F,
) -> A
where
    H::Dir: Send,
    requires jobs { All (MayRun R.WIDTH S.shown) jobs.old }
    requires work { F.pre work.old }
    ensures jobs { AllZip (IsDone R.bytes_of R.record_of R.WIDTH S.shown) jobs.old jobs.new }
    ensures work { F.step work.old result work.new }
{
    let mut transfer = ||
        requires { All (MayRun R.WIDTH S.shown) jobs.now }
        ensures { AllZip (IsDone R.bytes_of R.record_of R.WIDTH S.shown) jobs.entry.now jobs.exit.now }
    { run_jobs(rt, jobs) };
    let (_transferred, given) = join_mut(rt, &mut transfer, work);
    given
}
