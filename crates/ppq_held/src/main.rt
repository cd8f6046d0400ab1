//! A simulator whose events are held in a queue over a device file: so many at a time are taken, and each is replaced
//! by a later one, until as many were taken as are held.
//!
//! With the arguments `COUNT BATCH WORKERS BLOCK HEAP MEMORY BLOCKS DEVICE` it does so with these numbers, of which the
//! last five are the sizes of a queue and its file; with none, with some of its own, of which most events lie in blocks.
//! It prints a number that depends on what was taken, in which order, and no time: `bench/serve` runs it beside
//! programs that do the same through `ppq-serve`.
#![tactic(auto)]

mod held;

use held::Held;
use ppq_device::{Host, Sizes};
use std::alloc::Global;
use std::io::ErrorKind;
use std::{env, io};

// How many events are held, and how many of them are taken at a time.
#[derive(Clone, Copy)]
struct Task {
    count: u64,
    batch: u64,
}

// The task that is done with no argument.
const SMALL: Task = Task {
    count: 20_000,
    batch: 64,
};

// The device file of that.
const DEVICE: &str = "ppq_held.device";

// Takes so many events, and replaces each by a later one. Returns how many there were.
fn replace<H: Host>(rt: &H, held: &mut Held, count: u64) -> io::Result<u64>
where
    H::Dir: Send,
{
    let taken = held.take(rt, count)?;
    for number in 0..taken {
        if let Some(time) = held.note(number) {
            held.add(rt, time)?;
        }
    }
    Ok(taken)
}

// Adds the events of a task, and replaces as many of them.
fn turn_over<H: Host>(rt: &H, held: &mut Held, task: Task) -> io::Result<()>
where
    H::Dir: Send,
{
    for _event in 0..task.count {
        held.add(rt, 0)?;
    }
    let mut left = task.count;
    for _turn in 0..task.count {
        if left == 0 {
            break;
        }
        left = left.saturating_sub(replace(rt, held, task.batch.min(left))?);
    }
    Ok(())
}

// Executes a task, and returns what was taken as one number.
fn execute<H: Host>(
    rt: &H,
    alloc: Global,
    task: Task,
    sizes: Sizes,
    device: &str,
) -> io::Result<u64>
where
    H::Dir: Send,
{
    let mut held = Held::open(rt, alloc, device, sizes)?;
    let done = turn_over(rt, &mut held, task);
    let taken = held.close();
    done.map(|()| taken)
}

// What is no number in its range, as an error.
fn bad_argument() -> io::Error {
    io::Error::from(ErrorKind::InvalidInput)
}

// The number of an argument.
fn number(word: &String) -> io::Result<u64> {
    word.parse().map_err(|_| bad_argument())
}

// The number of an argument, below 2^32.
fn small_number(word: &String) -> io::Result<u32> {
    word.parse().map_err(|_| bad_argument())
}

// Executes the task that the arguments say.
fn execute_as_said<H: Host>(rt: &H, alloc: Global, words: &[String]) -> io::Result<u64>
where
    H::Dir: Send,
{
    if words.is_empty() {
        let sizes = Sizes::new(1, 64, 1, 6_000, 702);
        return execute(rt, alloc, SMALL, sizes.ok_or(bad_argument())?, DEVICE);
    }
    let [count, batch, workers, block, heap, memory, blocks, device] = words else {
        return Err(bad_argument());
    };
    let task = Task {
        count: number(count)?,
        batch: number(batch)?,
    };
    let sizes = Sizes::new(
        small_number(workers)?,
        small_number(block)?,
        small_number(heap)?,
        number(memory)?,
        small_number(blocks)?,
    );
    execute(rt, alloc, task, sizes.ok_or(bad_argument())?, device)
}

fn main(rt: HostRuntime) -> io::Result<()> {
    let words = env::args(&rt)?.skip(1).collect(rt.alloc());
    let words: Vec<String> = words.map_err(|_| io::Error::from(ErrorKind::OutOfMemory))?;
    let taken = execute_as_said(&rt, rt.alloc(), &words)?;
    println!(rt; "{taken}")?;
    Ok(())
}
