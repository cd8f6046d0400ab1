//! Generated scripts over small queues, which do as a sorted list of records does.

use crate::list::{Case, put_line, script};
use crate::runs::{Outcome, plain};
use ppq_budget::Sizes;
use ppq_engine::End;
use ppq_outside::Host;
use ppq_testkit::{draw, most_written};
use std::alloc::Global;
use std::process::Abort;
use std::test::Fail;

// The sizes of a queue but for the blocks of its device.
#[derive(Clone, Copy)]
struct Shape {
    workers: u32,
    // How many records a block has.
    block: u32,
    // How many blocks a heap has.
    heap: u32,
    // How many buffers the budget leaves in the pool.
    buffers: u64,
}

impl Shape {
    // How many blocks are enough for a load: those that it fills twice, 72, and four for each worker.
    fn room(self, load: u64) -> u64 {
        let filled = load.div_ceil(u64::from(self.block.max(1)));
        filled
            .saturating_mul(2)
            .saturating_add(u64::from(self.workers).saturating_mul(4))
            .saturating_add(72)
    }

    // The sizes with these blocks of a device. The budget is what is fixed, and the buffers of the pool: a
    // block of records for each of these and of 72 more, and, for each worker, its heap and 6 blocks; and a
    // record for each block of the device.
    fn over(self, blocks: u64) -> Option<Sizes> {
        let buffers = u64::from(self.heap)
            .saturating_add(6)
            .saturating_mul(u64::from(self.workers))
            .saturating_add(72)
            .saturating_add(self.buffers);
        let budget = buffers
            .saturating_mul(u64::from(self.block))
            .saturating_add(blocks);
        Sizes::new(
            self.workers,
            self.block,
            self.heap,
            budget,
            blocks.min(65_536) as u32,
        )
    }
}

// Runs the script on a device of so many blocks, and says whether it was done. Then it has printed what the list
// does; else it found no free block, and has printed the beginning of that. Few blocks were written, and no more
// were read than written.
fn is_done<H: Host + Abort>(rt: &H, case: &Case, shape: Shape, blocks: u64) -> bool
where
    H::Dir: Send,
{
    let Outcome {
        end,
        wrote,
        writes,
        reads,
        ..
    } = plain(rt, case.alloc, &case.text, shape.over(blocks));
    let written = writes.saturating_mul(u64::from(shape.block));
    let most = most_written(
        shape.workers,
        shape.block,
        shape.heap,
        case.pushed,
        case.begun,
    );
    assert!(rt; written <= most && reads <= writes);
    let is_done = end == End::Done;
    assert!(rt; is_done || end == End::NoFreeBlock);
    assert!(rt; case.output.starts_with(&wrote));
    assert!(rt; !is_done || wrote.len() == case.output.len());
    is_done
}

// What some generated scripts were.
#[derive(Clone, Copy)]
struct Tally {
    // How many had sessions of both kinds.
    both: u64,
    // How many were done on a device with fewer blocks.
    whole: u64,
    // How many found no free block there.
    cut: u64,
    // The greatest load of one.
    load: u64,
}

impl Tally {
    // Of no script.
    fn new() -> Tally {
        Tally {
            both: 0,
            whole: 0,
            cut: 0,
            load: 0,
        }
    }

    // With a script, that was done on a device with fewer blocks or not.
    fn with(self, case: &Case, is_whole: bool) -> Tally {
        let has_both = u64::from(case.bulked && case.limited);
        Tally {
            both: self.both.saturating_add(has_both),
            whole: self.whole.saturating_add(u64::from(is_whole)),
            cut: self.cut.saturating_add(u64::from(!is_whole)),
            load: self.load.max(case.load),
        }
    }
}

// Runs a script on a device that is large enough, and on one with fewer blocks, which refuses no load of one
// heap outside limit sessions. Whether it was done on that too.
fn on_two_devices<H: Host + Abort>(rt: &H, case: &Case, shape: Shape, fewer: u64) -> bool
where
    H::Dir: Send,
{
    assert!(rt; is_done(rt, case, shape, shape.room(case.load)));
    let is_whole = is_done(rt, case, shape, fewer);
    let in_heap = u64::from(shape.heap).saturating_mul(u64::from(shape.block));
    assert!(rt; is_whole || case.load > in_heap || case.limited);
    is_whole
}

#[test]
fn the_room_is_enough_and_a_block_less_refuses_no_load_of_a_heap(
    rt: HostRuntime,
) -> Result<(), Fail> {
    let shape = Shape {
        workers: 1,
        block: 2,
        heap: 1,
        buffers: 0,
    };
    let mut seed = 1;
    let mut tally = Tally::new();
    for _ in 0..300 {
        let most = if draw(&mut seed, 20) == 0 { 800 } else { 60 };
        let commands = draw(&mut seed, most);
        let case = script(rt.alloc(), &mut seed, commands, 400, 1)?;
        let fewer = shape.room(case.load).saturating_sub(1);
        tally = tally.with(&case, on_two_devices(&rt, &case, shape, fewer));
    }
    assert!(rt; tally.load == 400);
    Ok(())
}

// Runs so many generated scripts on queues for so many workers: one in three with no buffer in the pool, one with
// two and one with five. Most have sessions of both kinds; on devices with fewer blocks some are done, and some
// are not.
fn do_as_a_list<H: Host + Abort>(
    rt: &H,
    alloc: Global,
    workers: u32,
    block: u32,
    heap: u32,
    scripts: u64,
) -> Result<(), Fail>
where
    H::Dir: Send,
{
    let mut seed = u64::from(workers);
    let mut tally = Tally::new();
    for number in 0..scripts {
        let buffers = [0, 2, 5][(number % 3) as usize];
        let shape = Shape {
            workers,
            block,
            heap,
            buffers,
        };
        let commands = 10 + draw(&mut seed, 30);
        let case = script(alloc, &mut seed, commands, 100, workers)?;
        let fewer = draw(&mut seed, 12);
        tally = tally.with(&case, on_two_devices(rt, &case, shape, fewer));
    }
    assert!(rt; tally.both > scripts / 2);
    assert!(rt; tally.whole > scripts / 10 && tally.cut > scripts / 10);
    Ok(())
}

#[test]
fn one_worker_does_as_a_list(rt: HostRuntime) -> Result<(), Fail> {
    do_as_a_list(&rt, rt.alloc(), 1, 4, 2, 405)
}

#[test]
fn two_workers_do_as_a_list(rt: HostRuntime) -> Result<(), Fail> {
    do_as_a_list(&rt, rt.alloc(), 2, 2, 1, 405)
}

#[test]
fn three_workers_do_as_a_list(rt: HostRuntime) -> Result<(), Fail> {
    do_as_a_list(&rt, rt.alloc(), 3, 3, 1, 405)
}

#[test]
fn seven_workers_do_as_a_list(rt: HostRuntime) -> Result<(), Fail> {
    do_as_a_list(&rt, rt.alloc(), 7, 2, 1, 405)
}

// Pushes of keys from this one down to 1, with the value 0, and then two pops.
fn falling(alloc: Global, keys: u64) -> Result<Vec<u8>, Fail> {
    let mut text = Vec::new(alloc);
    for i in 0..keys {
        put_line(&mut text, alloc, b"push", &[keys - i, 0])?;
    }
    text.extend_from_slice(b"pop\npop\n")?;
    Ok(text)
}

#[test]
fn four_thousand_records_above_the_budget_are_written(rt: HostRuntime) -> Result<(), Fail> {
    let text = falling(rt.alloc(), 4_000)?;
    let sizes = Sizes::new(1, 16, 1, 1_840, 576);
    let ran = plain(&rt, rt.alloc(), &text, sizes);
    assert!(rt; ran.end == End::Done && ran.wrote.as_slice() == b"1 0\n2 0\n".as_slice());
    let (writes, reads) = (ran.writes, ran.reads);
    assert!(rt; ran.blocks == 576 && writes >= 135);
    assert!(rt; writes <= 5_000 && reads <= writes);
    println!(rt;
        "4000 records falling, 16 a block, a budget of 1840: {writes} writes, {reads} reads"
    )?;
    Ok(())
}
