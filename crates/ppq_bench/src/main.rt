//! Times the library's own calls on this machine.
//!
//! With no argument it makes small merges and says whether each gives what a sort gives, and executes the loads
//! below with some records by one worker and by four, so that it prints the same on every machine. With the
//! argument `merge` it times large ones: 8, 64 and 512 runs of pairs from memory, by one worker and by
//! four. `bench/merge` runs it beside a loser tree in C++ over the same records.
//!
//! With the arguments `LOAD SEED COUNT WORKERS BLOCK HEAP DEVICE` it executes a load over a device file, by a queue
//! with so many workers, records in a block and blocks in a heap. It prints the count, the first and the last of
//! what was removed and the sum of the keys, and no time: `bench/device` runs it beside other queues. The loads are
//!
//! - `hold`: so many records are held, and COUNT times the smallest is removed and one with a greater key is
//!   added. With the argument `longest` after these a further line says how many microseconds the longest push or
//!   pop took;
//! - `fill`: the records of `gen SEED COUNT` are added in a bulk session, by threads of the program's own, and
//!   then all are removed by bulk pops;
//! - `below`: they are added so; in a limit session those with keys below 2^63 are removed, while threads add for
//!   each of them one whose key is greater by 2^63; and then all are removed, one by one.
#![tactic(auto)]

mod device;
mod held;
mod load;
mod merges;
mod removed;
mod sessions;
mod task;
mod watch;

use device::Shape;
use held::hold;
use load::{Load, out_of_memory};
use merges::{as_sorted, picoseconds};
use ppq_device::Host;
use removed::Removed;
use sessions::{fill_and_drain, take_below_and_drain};
use std::alloc::Global;
use std::io::ErrorKind;
use std::rt::Clock;
use std::thread::Threads;
use std::{env, io};
use task::Task;
use watch::Watch;

// The numbers of runs.
const RUNS: [u32; 3] = [8, 64, 512];

// The numbers of workers.
const WORKERS: [u32; 2] = [1, 4];

// How many records the small merges have: of 8 and of 64 runs three of four workers have a piece, and of 512 two.
const FEW: u64 = 24576;

// How many records the timed merges have: 4 and 32 MiB.
const SIZES: [u64; 2] = [262144, 2097152];

// The budget of a large queue in records: 16 MiB.
const MEMORY: u64 = 1048576;

// A queue that is used up by few records.
const SMALL: Shape = Shape {
    block: 64,
    heap: 1,
    memory: 16384,
};

// How many records a small load has.
const SOME: u32 = 50000;

// The number of the generator that is in front of the first of them.
const SEED: u64 = 7;

// The device file of a small queue.
const DEVICE: &str = "ppq_bench.device";

// Makes a small merge of so many runs, and says whether it gives what a sort gives.
fn check_merge<H: Threads + Sync>(
    rt: &H,
    alloc: Global,
    runs: u32,
    workers: u32,
) -> io::Result<&'static str> {
    let load = Load::new(alloc, runs, FEW)?;
    let is_sorted = as_sorted(rt, alloc, &load, workers)?;
    Ok(if is_sorted { "as sorted" } else { "WRONG" })
}

// Makes the small merges, and prints of each whether it gives what a sort gives.
fn check_merges<H: Threads + Sync + Print>(rt: &H, alloc: Global) -> io::Result<()> {
    for runs in RUNS {
        for workers in WORKERS {
            let answer = check_merge(rt, alloc, runs, workers)?;
            println!(rt; "{runs} runs by {workers}: {answer}")?;
        }
    }
    Ok(())
}

// The picoseconds a record that merging a load takes, by one worker and by four.
fn times_of<H: Threads + Sync + Clock>(
    rt: &H,
    alloc: Global,
    load: &Load,
) -> io::Result<(u64, u64)> {
    let one = picoseconds(rt, alloc, load, 1)?;
    let four = picoseconds(rt, alloc, load, 4)?;
    Ok((one, four))
}

// The picoseconds a record that merging so many runs takes, by one worker and by four.
fn time_merges<H: Threads + Sync + Clock>(
    rt: &H,
    alloc: Global,
    runs: u32,
    records: u64,
) -> io::Result<(u64, u64)> {
    let load = Load::new(alloc, runs, records)?;
    times_of(rt, alloc, &load)
}

// Times large merges: for each number of records and of runs the picoseconds a record, by one worker
// and by four.
fn time<H: Threads + Sync + Clock + Print>(rt: &H, alloc: Global) -> io::Result<()> {
    for records in SIZES {
        for runs in RUNS {
            let (one, four) = time_merges(rt, alloc, runs, records)?;
            println!(rt; "{records} {runs} {one} {four}")?;
        }
    }
    Ok(())
}

// The arguments.
fn words_of(rt: &HostRuntime) -> io::Result<Vec<String>> {
    let words = env::args(rt)?.skip(1).collect(rt.alloc());
    words.map_err(|_| out_of_memory())
}

// An argument that is not what it should be.
fn bad_argument() -> io::Error {
    io::Error::from(ErrorKind::InvalidInput)
}

// Prints what was removed.
fn print_removed<R: Print>(rt: &R, removed: Removed) -> io::Result<()> {
    let Removed {
        count,
        first,
        last,
        sum,
    } = removed;
    let (key, value) = (first.key, first.value);
    let (last_key, last_value) = (last.key, last.value);
    println!(rt; "count {count} first {key} {value} last {last_key} {last_value} sum {sum}")?;
    Ok(())
}

// Executes each load with some records, and prints what was removed.
fn check_loads<H: Host + Clock>(rt: &H, alloc: Global, workers: u32) -> io::Result<()>
where
    H::Dir: Send,
{
    let task = Task {
        seed: SEED,
        count: SOME,
        workers,
    };
    let held = hold(rt, alloc, SMALL, task, DEVICE, &mut Watch::new(false))?;
    print_removed(rt, held)?;
    print_removed(rt, fill_and_drain(rt, alloc, SMALL, task, DEVICE)?)?;
    print_removed(rt, take_below_and_drain(rt, alloc, SMALL, task, DEVICE)?)
}

// Makes the small merges and executes the small loads, and prints of both what is the same on every machine.
fn check<H: Host + Clock>(rt: &H, alloc: Global) -> io::Result<()>
where
    H::Dir: Send,
{
    check_merges(rt, alloc)?;
    for workers in WORKERS {
        check_loads(rt, alloc, workers)?;
    }
    Ok(())
}

// A load of so many records of a seed by so many workers, as these arguments say.
fn task_of(seed: &str, count: &str, workers: &str) -> io::Result<Task> {
    let seed = seed.parse().map_err(|_| bad_argument())?;
    let count = count.parse().map_err(|_| bad_argument())?;
    let workers = workers.parse().map_err(|_| bad_argument())?;
    Ok(Task {
        seed,
        count,
        workers,
    })
}

// A large queue with so many records in a block and blocks in a heap, as these arguments say.
fn shape_of(block: &str, heap: &str) -> io::Result<Shape> {
    let block = block.parse().map_err(|_| bad_argument())?;
    let heap = heap.parse().map_err(|_| bad_argument())?;
    Ok(Shape {
        block,
        heap,
        memory: MEMORY,
    })
}

// Executes a load as these arguments say, and prints what was removed, and how long the longest call took, if any was
// timed.
fn execute<H: Host + Clock>(
    rt: &H,
    alloc: Global,
    words: &[String],
    watch: &mut Watch,
) -> io::Result<()>
where
    H::Dir: Send,
{
    let [load, seed, count, workers, block, heap, device] = words else {
        return Err(bad_argument());
    };
    let task = task_of(seed, count, workers)?;
    let large = shape_of(block, heap)?;
    let removed = match load.as_str() {
        "hold" => hold(rt, alloc, large, task, device, watch)?,
        "fill" => fill_and_drain(rt, alloc, large, task, device)?,
        "below" => take_below_and_drain(rt, alloc, large, task, device)?,
        _ => return Err(bad_argument()),
    };
    print_removed(rt, removed)?;
    if let Some(longest) = watch.longest() {
        println!(rt; "longest {longest}")?;
    }
    Ok(())
}

// Executes a load as the arguments say, with a watch that is on if the last one is `longest`.
fn execute_as_said<H: Host + Clock>(rt: &H, alloc: Global, words: &[String]) -> io::Result<()>
where
    H::Dir: Send,
{
    match words.split_last() {
        Some((last, words)) if last.as_str() == "longest" => {
            execute(rt, alloc, words, &mut Watch::new(true))
        }
        _ => execute(rt, alloc, words, &mut Watch::new(false)),
    }
}

fn main(rt: HostRuntime) -> io::Result<()> {
    let words = words_of(&rt)?;
    match words.first() {
        None => check(&rt, rt.alloc()),
        Some(word) if word.as_str() == "merge" => time(&rt, rt.alloc()),
        Some(_) => execute_as_said(&rt, rt.alloc(), &words),
    }
}
