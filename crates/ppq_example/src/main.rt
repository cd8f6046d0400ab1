//! A simulator of machines: each makes one piece after the other, and the queue holds the time at which
//! each of them is done. There are 120,000 machines, and the budget has room for 32,768 records, so most of these
//! events lie in the blocks of a device file.
//!
//! `bench/expected.py machines` makes the same pieces with a heap of Python, and prints the same.
#![tactic(auto)]

use ppq_checked::{Checked, CheckedRack};
use ppq_device::{
    Host, OpenFault, OpenGate, OutsideFault, Queue, QueueFault, Sizes, Slot, Triple, make_blocks,
};
use ppq_edge::{FileRack, FileSlot};
use std::alloc::Global;
use std::process::ExitCode;

// How many machines there are, and how many pieces they make.
const MACHINES: u64 = 120_000;

const PIECES: u64 = 600_000;

// The device file.
const DEVICE: &str = "ppq_example.device";

// The time at which a machine is done, its number, and how many pieces it will have made then.
type Events = Queue<Checked<FileSlot>, Triple>;

// Why the simulation stopped early.
#[derive(Debug, Drop)]
enum Fault {
    Device(OutsideFault),
    Open(OpenFault),
    Queue(QueueFault),
    Print,
}

// What the machines did.
#[derive(Clone, Copy)]
struct Made {
    // When the last piece was done.
    clock: u64,
    // The most pieces of one machine.
    most: u64,
    // The numbers of the machines in the order of the pieces, as one number.
    order: u64,
}

// Opens a queue over the blocks of a device file.
fn open<H: Host>(rt: &H, alloc: Global) -> Result<Events, Fault> {
    let sizes = Sizes::new(2, 256, 4, 32768, 1024).unwrap();
    let mut rack = CheckedRack::new(FileRack::new());
    let blocks = make_blocks::<Triple, _, _>(rt, alloc, &mut rack, DEVICE, sizes);
    let blocks = blocks.map_err(Fault::Device)?;
    Queue::open(alloc, sizes, blocks).map_err(|refused| Fault::Open(refused.1))
}

// Lets the machine that is done with a piece begin its next one, which takes 1 to 1,048,576 ticks.
fn begin<H: Host>(rt: &H, events: &mut Events, done: Triple) -> Result<(), QueueFault>
where
    H::Dir: Send,
{
    let mixed = (done.time ^ (done.target << 20)).wrapping_mul(0x9E37_79B9_7F4A_7C15);
    let next = Triple {
        time: done.time.saturating_add(1 + (mixed >> 44)),
        target: done.target,
        word: done.word.saturating_add(1),
    };
    events
        .push(rt, next, &OpenGate)
        .map_err(|refused| refused.1)
}

// Runs the machines until so many pieces are made.
fn make_pieces<H: Host>(rt: &H, events: &mut Events) -> Result<Made, QueueFault>
where
    H::Dir: Send,
{
    for number in 0..MACHINES {
        let ready = Triple {
            time: 0,
            target: number,
            word: 0,
        };
        begin(rt, events, ready)?;
    }
    let mut made = Made {
        clock: 0,
        most: 0,
        order: 0,
    };
    for _piece in 0..PIECES {
        if let Some(done) = events.pop(rt, &OpenGate)? {
            made.clock = done.time;
            made.most = made.most.max(done.word);
            made.order = made.order.wrapping_mul(31).wrapping_add(done.target);
            begin(rt, events, done)?;
        }
    }
    Ok(made)
}

// Runs the simulation over a queue that is closed whatever came, and prints what was made.
fn simulate<H: Host>(rt: &H, alloc: Global) -> Result<(), Fault>
where
    H::Dir: Send,
{
    let mut events = open(rt, alloc)?;
    let ended = make_pieces(rt, &mut events);
    let waiting = events.size();
    let written = events.close().iter().any(|block| block.writes() > 0);
    let Made { clock, most, order } = ended.map_err(Fault::Queue)?;
    let said = println!(rt;
        "{PIECES} pieces at {clock}, at most {most} of one machine, order {order}, {waiting} waiting, device used: {written}"
    );
    said.map_err(|_| Fault::Print)
}

fn main(rt: HostRuntime) -> ExitCode {
    let why = match simulate(&rt, rt.alloc()) {
        Ok(()) => return ExitCode::SUCCESS,
        Err(Fault::Device(OutsideFault::Failed)) => "the device file cannot be made",
        Err(Fault::Open(OpenFault::TooSmall { need: _ })) => "the budget is too small",
        Err(Fault::Device(OutsideFault::Memory) | Fault::Open(OpenFault::Memory)) => "no memory",
        Err(Fault::Queue(QueueFault::NoFreeBlock)) => "the device is full",
        Err(Fault::Queue(QueueFault::Device { number: _ })) => "a block of the device failed",
        Err(Fault::Print) => "standard output takes nothing more",
    };
    // The status tells of the fault where this line cannot be written.
    let _ = eprintln!(rt; "ppq_example: {why}");
    ExitCode::FAILURE
}
