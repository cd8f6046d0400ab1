//! Records that are held in a queue over a device file, while others come and go.
use crate::device::{DeviceQueue, Shape, open, refused, sizes_for};
use crate::removed::Removed;
use crate::task::{Task, step_of};
use crate::watch::Watch;
use ppq_device::{Host, OpenGate, Pair};
use std::alloc::Global;
use std::io;
use std::io::ErrorKind;
use std::rt::Clock;

// Adds a record.
fn push<H: Host + Clock>(
    rt: &H,
    queue: &mut DeviceQueue,
    item: Pair,
    watch: &mut Watch,
) -> io::Result<()>
where
    H::Dir: Send,
{
    let start = watch.start(rt)?;
    let pushed = queue.push(rt, item, &OpenGate);
    watch.stop(rt, start)?;
    match pushed {
        Ok(()) => Ok(()),
        Err((_, fault)) => Err(refused(fault)),
    }
}

// Removes the smallest record of a queue that is not empty.
fn pop<H: Host + Clock>(rt: &H, queue: &mut DeviceQueue, watch: &mut Watch) -> io::Result<Pair>
where
    H::Dir: Send,
{
    let start = watch.start(rt)?;
    let popped = queue.pop(rt, &OpenGate);
    watch.stop(rt, start)?;
    match popped {
        Ok(Some(item)) => Ok(item),
        Ok(None) => Err(io::Error::from(ErrorKind::UnexpectedEof)),
        Err(fault) => Err(refused(fault)),
    }
}

// Adds the records of a task, with keys below 2^40, and returns the generator's number after them.
fn fill<H: Host + Clock>(
    rt: &H,
    queue: &mut DeviceQueue,
    task: Task,
    watch: &mut Watch,
) -> io::Result<u64>
where
    H::Dir: Send,
{
    let mut number = task.seed;
    for value in 0..task.count {
        number = step_of(number);
        let item = Pair {
            key: number >> 24,
            value: u64::from(value),
        };
        push(rt, queue, item, watch)?;
    }
    Ok(number)
}

// So many times removes the smallest record and adds one whose key is greater by a number below 2^40.
fn turn_over<H: Host + Clock>(
    rt: &H,
    queue: &mut DeviceQueue,
    from: u64,
    count: u32,
    watch: &mut Watch,
) -> io::Result<Removed>
where
    H::Dir: Send,
{
    let mut removed = Removed::none();
    let mut number = from;
    for turn in 0..count {
        let least = pop(rt, queue, watch)?;
        removed = removed.with(least);
        number = step_of(number);
        let key = least.key.wrapping_add(number >> 24);
        let value = u64::from(count) + u64::from(turn);
        push(rt, queue, Pair { key, value }, watch)?;
    }
    Ok(removed)
}

// Adds the records of a task to a queue, and turns them over once.
fn fill_and_turn<H: Host + Clock>(
    rt: &H,
    queue: &mut DeviceQueue,
    task: Task,
    watch: &mut Watch,
) -> io::Result<Removed>
where
    H::Dir: Send,
{
    let number = fill(rt, queue, task, watch)?;
    turn_over(rt, queue, number, task.count, watch)
}

// Holds the records of a task in a queue over a device file, and turns them over once, while a watch times each push
// and pop.
pub(crate) fn hold<H: Host + Clock>(
    rt: &H,
    alloc: Global,
    shape: Shape,
    task: Task,
    device: &str,
    watch: &mut Watch,
) -> io::Result<Removed>
where
    H::Dir: Send,
{
    let sizes = sizes_for(shape, task.count, task.workers)?;
    let mut queue = open(rt, alloc, device, sizes)?;
    let removed = fill_and_turn(rt, &mut queue, task, watch);
    let _slots = queue.close();
    removed
}
