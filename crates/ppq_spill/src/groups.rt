//! Writing a run in groups of blocks, each beside the merging of the next one.
ghost use Rattle.std.specs.Prelude.{◌≡◌, ◌+◌, ◌-◌, ◌*◌, ◌<◌, ◌≤◌, ◌^◌, ◌++◌, ◌∷◌, [], length, map, reverse, All, vec_capacity, IfSome, IfNone, sum_by};
ghost use Rattle.std.specs.List.{AllZip};
ghost use Rattle.ppq_fetch.specs.ppq_array.External.{External, external, size_of};
ghost use Rattle.ppq_fetch.specs.ppq_lane.Jobs.{MayRun, IsDone};
ghost use Rattle.ppq_spill.specs.Writing.{MayWriteRuns, BodyRests, RunsEnd, block_in};
ghost use Rattle.ppq_spill.specs.Grouping.{MayFillGroup, FilledGroup, IsWrite, CanEnd, IsGood, Took, GroupStopped, appended, slot_of, buf_of, items_in};

use crate::PassBody;
use crate::merging::{merge_least, write_heads};
use crate::new_array::NewArray;
use crate::writing::write_runs;
use ppq_fetch::{
    Berth, BerthList, BufList, ExternalArray, Host, Job, JobKind, LEAST_GROUP, MOST_GROUP, Record,
    Slot, overlap_mut, record_laws, run_jobs,
};
use std::mem::replace;

// Merges all runs in buffers of a body and a sorted list into blocks, and writes them to the slots of a
// new array, as `write_runs` does. Where buffers and jobs have room for groups that are large enough, a
// group is written on a thread of its own while the next one is merged.
pub(crate) fn write_run<H: Host, S: Slot + Send, R: Record + Send>(
    rt: &H,
    body: &mut PassBody<S, R>,
    sorted: &[R],
    making: &mut NewArray<S, R>,
) -> Option<Berth<S, R>>
where
    H::Dir: Send,
    requires may { MayWriteRuns S.shown R.WIDTH (block_in body.old.lanes.idle) body.old sorted.now making.old }
    ensures rests { BodyRests (block_in body.old.lanes.idle) body.old body.new }
    ensures outcome { RunsEnd R.Ord.cmp R.record_of R.WIDTH (block_in body.old.lanes.idle) S.shown sorted.now body.old body.new making.old making.new result }
{
    let lanes = &body.lanes;
    let group = group_size(lanes.idle.len(), lanes.jobs.capacity(), making.berths.len());
    if group < LEAST_GROUP {
        return write_runs(rt, body, sorted, making);
    }
    let mut jobs = take_jobs(&mut body.lanes.jobs);
    let failed = write_groups(rt, body, &mut jobs, sorted, making, group);
    body.lanes.jobs = jobs;
    failed
}

// How many blocks a group has, where so many buffers are idle, so many jobs have room, and so many blocks
// are to be written: as many as two groups have buffers for, in at least two groups.
fn group_size(idle: u32, room: usize, blocks: u32) -> u32
    ensures idle { 2 * result ≤ idle }
    ensures room { result ≤ room }
{
    let most = (idle / 2).min(blocks / 2).min(MOST_GROUP);
    if (most as usize) <= room {
        most
    } else {
        room as u32
    }
}

// Takes a list of jobs away, and leaves an empty one without room.
pub(crate) fn take_jobs<S: Slot, R: Record>(
    jobs: &mut Vec<Job<Berth<S, R>, R>>,
) -> Vec<Job<Berth<S, R>, R>>
    ensures taken { result ≡ jobs.old }
    ensures none { jobs.new.items ≡ [] }
{
    let alloc = *jobs.allocator();
    replace(jobs, Vec::new(alloc))
}

// Merges runs and a sorted list into blocks, and writes them to these slots in groups of so many, each
// beside the merging of the next one. Where writes fail, it ends after their group and gives the slot of
// the first one in the order of the run.
fn write_groups<H: Host, S: Slot + Send, R: Record + Send>(
    rt: &H,
    body: &mut PassBody<S, R>,
    jobs: &mut Vec<Job<Berth<S, R>, R>>,
    sorted: &[R],
    making: &mut NewArray<S, R>,
    group: u32,
) -> Option<Berth<S, R>>
where
    H::Dir: Send,
    requires may { MayWriteRuns S.shown R.WIDTH (block_in body.old.lanes.idle) body.old sorted.now making.old }
    requires some { 1 ≤ group }
    requires two { 2 * group ≤ length body.old.lanes.idle }
    requires no_job { jobs.old.items ≡ [] }
    requires room { group ≤ vec_capacity jobs.old }
    ensures no_job { jobs.new.items ≡ [] }
    ensures room { vec_capacity jobs.new ≡ vec_capacity jobs.old }
    ensures rests { BodyRests (block_in body.old.lanes.idle) body.old body.new }
    ensures outcome { RunsEnd R.Ord.cmp R.record_of R.WIDTH (block_in body.old.lanes.idle) S.shown sorted.now body.old body.new making.old making.new result }
{
    record_laws::<R>();
    write_heads(&mut body.tree, &body.runs.internal, sorted);
    let mut at = 0;
    let first = group.min(making.berths.len());
    let mut filled = fill_group(body, sorted, &mut at, first);
    'groups: while !filled.is_empty() {
        begin_group(jobs, &mut making.berths, filled);
        let next = group.min(making.berths.len());
        filled = write_beside(rt, jobs, body, sorted, &mut at, next);
        match end_group(jobs, &mut body.lanes.idle, making) {
            Some(failed) => {
                put_back(&mut body.lanes.idle, filled);
                return Some(failed);
            }
            None => {}
        }
    }
    None
}

// Runs jobs while so many idle buffers are filled with the smallest records. Where none is to be filled, no
// thread is started.
fn write_beside<H: Host, S: Slot + Send, R: Record + Send>(
    rt: &H,
    jobs: &mut [Job<Berth<S, R>, R>],
    body: &mut PassBody<S, R>,
    sorted: &[R],
    at: &mut usize,
    count: u32,
) -> BufList<R>
where
    H::Dir: Send,
    requires jobs { All (MayRun R.WIDTH (λ b. S.shown b.slot)) jobs.old }
    requires may { MayFillGroup count sorted.now at.old body.old }
    ensures jobs { AllZip (IsDone R.bytes_of R.record_of R.WIDTH (λ b. S.shown b.slot)) jobs.old jobs.new }
    ensures filled { FilledGroup R.Ord.cmp count sorted.now at.old at.new body.old body.new result }
{
    if count == 0 {
        run_jobs(rt, jobs);
        return fill_group(body, sorted, at, count);
    }
    let mut fill = || -> BufList<R>
        requires { MayFillGroup count sorted.now at.now body.now }
        ensures { FilledGroup R.Ord.cmp count sorted.entry.now at.entry.now at.exit.now body.entry.now body.exit.now result }
    { fill_group(body, sorted, at, count) };
    overlap_mut(rt, jobs, &mut fill)
}

// Fills so many idle buffers with the smallest records of runs and of a list from a place on, in order.
fn fill_group<S: Slot, R: Record>(
    body: &mut PassBody<S, R>,
    sorted: &[R],
    at: &mut usize,
    count: u32,
) -> BufList<R>
    requires may { MayFillGroup count sorted.now at.old body.old }
    ensures { FilledGroup R.Ord.cmp count sorted.now at.old at.new body.old body.new result }
{
    let mut filled = BufList::empty();
    'filling: while filled.len() < count {
        let mut buf = body.lanes.idle.pop_front().unwrap();
        buf.clear();
        merge_least(
            &mut body.tree,
            &mut body.runs.internal,
            sorted,
            at,
            &mut buf,
        );
        filled.push_back(buf);
    }
    filled
}

// Gives each buffer the next slot, as jobs that write them.
fn begin_group<S: Slot, R: Record>(
    jobs: &mut Vec<Job<Berth<S, R>, R>>,
    berths: &mut BerthList<S, R>,
    filled: BufList<R>,
)
    requires no_job { jobs.old.items ≡ [] }
    requires slots { length filled ≤ length berths.old }
    requires room { length filled ≤ vec_capacity jobs.old }
    ensures slots { berths.old ≡ map slot_of jobs.new.items ++ berths.new }
    ensures bufs { map buf_of jobs.new.items ≡ filled }
    ensures write { All IsWrite jobs.new.items }
    ensures room { vec_capacity jobs.new ≡ vec_capacity jobs.old }
{
    let mut filled = filled;
    while let Some(buf) = filled.pop_front() {
        let slot = berths.pop_front().unwrap();
        jobs.push_reserved(Job {
            slot,
            buf,
            kind: JobKind::Write,
            done: None,
        });
    }
}

// Takes jobs that were done: their buffers are idle again, and their slots hold the next blocks of a new
// array. The first that failed comes back, and those after it go to the slots that are left.
pub(crate) fn end_group<S: Slot, R: Record>(
    jobs: &mut Vec<Job<Berth<S, R>, R>>,
    idle: &mut BufList<R>,
    making: &mut NewArray<S, R>,
) -> Option<Berth<S, R>>
    requires none_lifted { making.old.made.lifted ≡ [] }
    requires can { All (CanEnd R.record_of R.WIDTH S.shown) jobs.old.items }
    requires few_idle { length idle.old + length jobs.old.items < 2 ^ 32 - 1 }
    requires few_slots { length making.old.berths + length jobs.old.items < 2 ^ 32 - 1 }
    requires room { length making.old.made.stored + length jobs.old.items < 2 ^ 32 - 1 }
    requires few { size_of making.old.made + items_in jobs.old.items < 2 ^ 64 }
    ensures no_job { jobs.new.items ≡ [] }
    ensures job_room { vec_capacity jobs.new ≡ vec_capacity jobs.old }
    ensures idle { idle.new ≡ idle.old ++ map buf_of jobs.old.items }
    ensures good { IfNone result (All IsGood jobs.old.items) }
    ensures array { IfNone result (making.new.made ≡ appended making.old.made jobs.old.items) }
    ensures berths { IfNone result (making.new.berths ≡ making.old.berths) }
    ensures stopped { IfSome result (GroupStopped jobs.old.items making.old.berths making.new.berths making.old.made making.new.made) }
{
    jobs.reverse();
    match append_written(jobs, idle, &mut making.made) {
        None => None,
        Some(failed) => {
            give_rest(jobs, idle, &mut making.berths);
            Some(failed)
        }
    }
}

// Takes jobs from the end of a list on, up to the first that failed, whose slot comes back.
fn append_written<S: Slot, R: Record>(
    jobs: &mut Vec<Job<Berth<S, R>, R>>,
    idle: &mut BufList<R>,
    array: &mut ExternalArray<S, R>,
) -> Option<Berth<S, R>>
    requires none_lifted { array.old.lifted ≡ [] }
    requires can { All (CanEnd R.record_of R.WIDTH S.shown) jobs.old.items }
    requires few_idle { length idle.old + length jobs.old.items < 2 ^ 32 - 1 }
    requires room { length array.old.stored + length jobs.old.items < 2 ^ 32 - 1 }
    requires few { size_of array.old + items_in jobs.old.items < 2 ^ 64 }
    ensures job_room { vec_capacity jobs.new ≡ vec_capacity jobs.old }
    ensures taken { Took jobs.old.items jobs.new.items idle.old idle.new array.old array.new result }
{
    while let Some(job) = jobs.pop() {
        let Job {
            slot,
            buf,
            kind: _,
            done,
        } = job;
        let minimum = buf.at(0);
        let count = buf.len();
        idle.push_back(buf);
        let Some(answer) = done else { unreachable!() };
        match answer {
            Ok(()) => array.append(slot, minimum, count),
            Err(_) => return Some(slot),
        }
    }
    None
}

// Takes all jobs, from the end of the list on: buffers are idle again, and slots are left.
fn give_rest<S: Slot, R: Record>(
    jobs: &mut Vec<Job<Berth<S, R>, R>>,
    idle: &mut BufList<R>,
    berths: &mut BerthList<S, R>,
)
    requires few_idle { length idle.old + length jobs.old.items < 2 ^ 32 - 1 }
    requires few_slots { length berths.old + length jobs.old.items < 2 ^ 32 - 1 }
    ensures no_job { jobs.new.items ≡ [] }
    ensures job_room { vec_capacity jobs.new ≡ vec_capacity jobs.old }
    ensures idle { idle.new ≡ idle.old ++ map buf_of (reverse jobs.old.items) }
    ensures berths { berths.new ≡ berths.old ++ map slot_of (reverse jobs.old.items) }
{
    while let Some(job) = jobs.pop() {
        let Job {
            slot,
            buf,
            kind: _,
            done: _,
        } = job;
        idle.push_back(buf);
        berths.push_back(slot);
    }
}

// Puts buffers to the idle ones.
pub(crate) fn put_back<R: Record>(idle: &mut BufList<R>, filled: BufList<R>)
    requires { length idle.old + length filled < 2 ^ 32 - 1 }
    ensures { idle.new ≡ idle.old ++ filled }
{
    let mut filled = filled;
    while let Some(buf) = filled.pop_front() {
        idle.push_back(buf);
    }
}
