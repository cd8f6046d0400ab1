//! Merging arrays batch by batch, each batch taken while the one before it is written.
ghost use Rattle.std.specs.Prelude.{◌≡◌, ◌+◌, ◌-◌, ◌*◌, ◌^◌, ◌<◌, ◌≤◌, [], length, All, None, true, vec_capacity};
ghost use Rattle.std.specs.List.{AllZip};
ghost use Rattle.ppq_fetch.specs.ppq_lane.Jobs.{MayRun, IsDone};
ghost use Rattle.ppq_fetch.specs.Fetching.{state, MayFetch};
ghost use Rattle.ppq_spill.specs.Making.{table_of, MayMerge, MergeEnds, SameTools};
ghost use Rattle.ppq_spill.specs.Staging.{MayStage, Staged, MayTake, Takes};

use crate::buffers::put_records;
use crate::groups::end_group;
use crate::level::{see_emptied, take_batch};
use crate::making::next_slot;
use crate::new_array::NewArray;
use ppq_fetch::{
    Bench, Berth, BerthList, BufList, Crew, ExternalArray, Gate, Host, Job, JobKind,
    LEAST_RECORDS_BESIDE, LEAST_WORKERS_BESIDE, Lanes, Record, Slot, StoreFault, Supply, free_slot,
    overlap_mut, record_laws,
};

// Whether so many workers merge a level with a thread beside them, where a batch has so many records, there
// are so many jobs, room for so many, and so many slots in hand, which are counted with those of the jobs.
pub(crate) fn goes_beside(workers: u32, batch: usize, jobs: usize, room: usize, slots: u32) -> bool
    ensures none { result ≡ true → jobs ≡ 0 }
    ensures room { result ≡ true → workers ≤ room }
    ensures slots { result ≡ true → slots < 2 ^ 32 - 1 }
{
    let pays = LEAST_WORKERS_BESIDE <= workers && LEAST_RECORDS_BESIDE <= batch;
    pays && jobs == 0 && (workers as usize) <= room && slots < u32::MAX
}

// Merges 8 arrays into a new one, until nothing is left of them. Each batch is written on a thread of its
// own while the next one is taken. Where writes fail, it ends after their batch, and the fault names the
// slot of the first one in the order of the array.
pub(crate) fn merge_beside<
    H: Host,
    S: Slot + Send + Sync,
    R: Record + Send + Sync,
    P: Supply<S, R>,
    G: Gate,
>(
    crew: &Crew<H, G>,
    jobs: &mut Vec<Job<Berth<S, R>, R>>,
    inputs: &mut [ExternalArray<S, R>],
    making: &mut NewArray<S, R>,
    supply: &mut P,
    lanes: &mut Lanes<Berth<S, R>, R>,
    bench: &mut Bench<R>,
) -> Result<(), StoreFault>
where
    H::Dir: Send,
    requires no_job { jobs.old.items ≡ [] }
    requires room { bench.old.workers ≤ vec_capacity jobs.old }
    requires few { length making.old.berths < 2 ^ 32 - 1 }
    requires may { MayMerge S.shown R.WIDTH bench.old.workers (length bench.old.places) (length lanes.old.batch.items) (table_of inputs.old lanes.old making.old (P.stock supply.old)) }
    ensures outcome { MergeEnds R.Ord.cmp R.record_of R.WIDTH bench.old.workers S.shown (table_of inputs.old lanes.old making.old (P.stock supply.old)) (table_of inputs.new lanes.new making.new (P.stock supply.new)) result }
    ensures home { P.home supply.new ≡ P.home supply.old }
    ensures tools { SameTools lanes.old lanes.new bench.old.workers bench.new.workers (length bench.old.places) (length bench.new.places) }
    ensures no_job { jobs.new.items ≡ [] }
    ensures room { vec_capacity jobs.new ≡ vec_capacity jobs.old }
{
    record_laws::<R>();
    let block = lanes.idle.at(0).block();
    let below: Option<R> = None;
    let mut count = match take_batch(crew, inputs, supply, lanes, bench) {
        Ok(count) => count,
        Err(fault) => return Err(fault),
    };
    while 0 < count {
        let records = &lanes.batch[..count];
        stage(jobs, records, block, &mut lanes.idle, making, supply);
        let taken = take_beside(jobs, inputs, supply, lanes, bench, &below, crew);
        match end_group(jobs, &mut lanes.idle, making) {
            Some(berth) => {
                let number = berth.number();
                free_slot(supply, berth);
                return Err(StoreFault::Device { number });
            }
            None => {}
        }
        match taken {
            Ok(next) => count = next,
            Err(fault) => return Err(fault),
        }
    }
    see_emptied(inputs);
    Ok(())
}

// Puts records into idle buffers, each full but the last, and gives each buffer a slot: those in hand, and
// then those that the supply keeps. They are jobs then that write them.
fn stage<S: Slot, R: Record, P: Supply<S, R>>(
    jobs: &mut Vec<Job<Berth<S, R>, R>>,
    records: &[R],
    block: u32,
    idle: &mut BufList<R>,
    making: &mut NewArray<S, R>,
    supply: &mut P,
)
    requires may { MayStage S.shown R.WIDTH block (length records.now) (vec_capacity jobs.old) idle.old making.old.berths (P.stock supply.old) jobs.old.items }
    ensures staged { Staged R.WIDTH block S.shown records.now idle.old idle.new making.old.berths making.new.berths (P.stock supply.old) (P.stock supply.new) jobs.new.items }
    ensures made { making.new.made ≡ making.old.made }
    ensures room { vec_capacity jobs.new ≡ vec_capacity jobs.old }
    ensures home { P.home supply.new ≡ P.home supply.old }
{
    let mut at = 0;
    while at < records.len() {
        let end = records.len().min(at + block as usize);
        let slot = next_slot(supply, &mut making.berths);
        let mut buf = idle.pop_front().unwrap();
        buf.clear();
        put_records(&mut buf, &records[at..end]);
        jobs.push_reserved(Job {
            slot,
            buf,
            kind: JobKind::Write,
            done: None,
        });
        at = end;
    }
}

// Runs jobs while the next batch is taken, without a limit. Its parameters stand in this order, and the
// limit is one of them, since the borrow checker takes the closure so: where a shared reference to a record
// stands before the crew.
fn take_beside<H: Host, S: Slot + Send + Sync, R: Record + Send + Sync, P: Supply<S, R>, G: Gate>(
    jobs: &mut [Job<Berth<S, R>, R>],
    inputs: &mut [ExternalArray<S, R>],
    supply: &mut P,
    lanes: &mut Lanes<Berth<S, R>, R>,
    bench: &mut Bench<R>,
    below: &Option<R>,
    crew: &Crew<H, G>,
) -> Result<usize, StoreFault>
where
    H::Dir: Send,
    requires jobs { All (MayRun R.WIDTH (λ b. S.shown b.slot)) jobs.old }
    requires may { MayTake S.shown R.WIDTH bench.old.workers (length bench.old.places) (state [] inputs.old lanes.old.idle (P.stock supply.old)) }
    ensures jobs { AllZip (IsDone R.bytes_of R.record_of R.WIDTH (λ b. S.shown b.slot)) jobs.old jobs.new }
    ensures took { Takes R.Ord.cmp R.record_of R.WIDTH bench.old.workers S.shown (state [] inputs.old lanes.old.idle (P.stock supply.old)) (state [] inputs.new lanes.new.idle (P.stock supply.new)) lanes.new.batch.items result }
    ensures home { P.home supply.new ≡ P.home supply.old }
    ensures tools { SameTools lanes.old lanes.new bench.old.workers bench.new.workers (length bench.old.places) (length bench.new.places) }
{
    let mut take = || -> Result<usize, StoreFault>
        requires { MayTake S.shown R.WIDTH bench.now.workers (length bench.now.places) (state [] inputs.now lanes.now.idle (P.stock supply.now)) }
        ensures took { Takes R.Ord.cmp R.record_of R.WIDTH bench.entry.now.workers S.shown (state [] inputs.entry.now lanes.entry.now.idle (P.stock supply.entry.now)) (state [] inputs.exit.now lanes.exit.now.idle (P.stock supply.exit.now)) lanes.exit.now.batch.items result }
        ensures home { P.home supply.exit.now ≡ P.home supply.entry.now }
        ensures tools { SameTools lanes.entry.now lanes.exit.now bench.entry.now.workers bench.exit.now.workers (length bench.entry.now.places) (length bench.exit.now.places) }
    { take_next(inputs, supply, lanes, bench, below, crew) };
    overlap_mut(crew.rt, jobs, &mut take)
}

// Takes the next batch. No limit is looked at.
fn take_next<H: Host, S: Slot + Send + Sync, R: Record + Send + Sync, P: Supply<S, R>, G: Gate>(
    inputs: &mut [ExternalArray<S, R>],
    supply: &mut P,
    lanes: &mut Lanes<Berth<S, R>, R>,
    bench: &mut Bench<R>,
    _below: &Option<R>,
    crew: &Crew<H, G>,
) -> Result<usize, StoreFault>
where
    H::Dir: Send,
    requires may { MayTake S.shown R.WIDTH bench.old.workers (length bench.old.places) (state [] inputs.old lanes.old.idle (P.stock supply.old)) }
    ensures took { Takes R.Ord.cmp R.record_of R.WIDTH bench.old.workers S.shown (state [] inputs.old lanes.old.idle (P.stock supply.old)) (state [] inputs.new lanes.new.idle (P.stock supply.new)) lanes.new.batch.items result }
    ensures home { P.home supply.new ≡ P.home supply.old }
    ensures tools { SameTools lanes.old lanes.new bench.old.workers bench.new.workers (length bench.old.places) (length bench.new.places) }
{
    take_batch(crew, inputs, supply, lanes, bench)
}
