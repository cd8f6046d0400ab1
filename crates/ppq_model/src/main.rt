//! A model of one's own over the library: pieces go through a workshop of 64 machines, which work beside each other.
//!
//! With no argument it handles some pieces, and prints the journal. With the arguments `PIECES STEPS WORKERS` it begins
//! with so many pieces, 4,096 of them at each tick, and handles as many; each takes a machine so many steps of
//! arithmetic, and a round is answered by so many workers. `bench/sim` times that.
#![tactic(auto)]

ghost use Rattle.std.specs.Prelude.{◌≡◌, IfOk};

mod machine;

use machine::Machine;
use ppq_checked::{Checked, CheckedRack};
use ppq_device::{OpenGate, make_blocks};
use ppq_edge::{FileRack, FileSlot, StdSink};
use ppq_event::{Handler, Host, Queue, Round, SimFault, Sizes, Triple, simulate};
use std::alloc::Global;
use std::io::ErrorKind;
use std::process::ExitCode;
use std::{env, io};

// How many machines there are.
const MACHINES: u64 = 64;

// How many pieces come at a tick.
const TOGETHER: u64 = 4096;

// The device file.
const DEVICE: &str = "ppq_model.device";

// What is to be done.
#[derive(Clone, Copy)]
struct Task {
    // How many pieces there are at first.
    pieces: u64,
    // How many times a machine works on one, at most.
    most: u64,
    // How many steps a machine works on one.
    steps: u64,
    // How many workers there are.
    workers: u32,
}

// The events of the model, over a device file whose blocks are summed.
type Events = Queue<Checked<FileSlot>, Triple>;

// The sizes of the queue: a budget of 1,048,576 events, and blocks enough for as many.
fn sizes_of(task: Task) -> io::Result<Sizes> {
    match Sizes::new(task.workers, 4096, 8, 1_048_576, 1024) {
        Some(sizes) => Ok(sizes),
        None => Err(io::Error::from(ErrorKind::InvalidInput)),
    }
}

// Opens the queue over the blocks of the device file.
fn open<H: Host>(rt: &H, alloc: Global, sizes: Sizes) -> io::Result<Events>
    ensures { IfOk result (λ events. events.sizes ≡ sizes) }
{
    let mut rack = CheckedRack::new(FileRack::new());
    let Ok(blocks) = make_blocks::<Triple, _, _>(rt, alloc, &mut rack, DEVICE, sizes) else {
        return Err(io::Error::from(ErrorKind::NotFound));
    };
    match Queue::open(alloc, sizes, blocks) {
        Ok(events) => Ok(events),
        Err(_) => Err(io::Error::from(ErrorKind::OutOfMemory)),
    }
}

// Adds the pieces with which the model begins.
fn begin<H: Host>(rt: &H, events: &mut Events, task: Task) -> io::Result<()>
where
    H::Dir: Send,
    ensures { events.new.sizes ≡ events.old.sizes }
{
    'adding: for number in 0..task.pieces {
        let piece = Triple {
            time: number / TOGETHER,
            target: number % MACHINES,
            word: 1 + number % 3,
        };
        if events.push(rt, piece, &OpenGate).is_err() {
            return Err(io::Error::from(ErrorKind::StorageFull));
        }
    }
    Ok(())
}

// Why a simulation stopped, as an error.
fn stopped(fault: SimFault) -> io::Error {
    match fault {
        SimFault::Write => io::Error::from(ErrorKind::BrokenPipe),
        SimFault::Queue(_) => io::Error::from(ErrorKind::StorageFull),
    }
}

// Makes the machines, and lets them handle the pieces.
fn handle<H: Host>(rt: &H, alloc: Global, task: Task) -> io::Result<()>
where
    H::Dir: Send,
{
    let sizes = sizes_of(task)?;
    let mut machines: Vec<Option<Box<dyn Handler + Send>>> = Vec::new(alloc);
    for _ in 0..MACHINES {
        let machine: Box<dyn Handler + Send> = Box::new(alloc, Machine::new(task.steps))?;
        machines.push(Some(machine))?;
    }
    if machines.is_empty() || machines.len() > 65_536 {
        return Err(io::Error::from(ErrorKind::InvalidInput));
    }
    let Ok(mut round) = Round::new(alloc, &sizes) else {
        return Err(io::Error::from(ErrorKind::OutOfMemory));
    };
    let mut events = open(rt, alloc, sizes)?;
    begin(rt, &mut events, task)?;
    let mut out = StdSink::out();
    let ended = simulate(
        rt,
        &mut events,
        &mut machines,
        u64::MAX,
        task.most,
        &mut out,
        &OpenGate,
        &mut round,
    );
    let _blocks = events.close();
    ended.map(|_| ()).map_err(stopped)
}

// The task that the arguments name: with none a small one.
fn task_of(words: &[String]) -> io::Result<Task> {
    let small = Task {
        pieces: 8,
        most: 1000,
        steps: 10,
        workers: 2,
    };
    let [pieces, steps, workers] = words else {
        return Ok(small);
    };
    match (pieces.parse(), steps.parse(), workers.parse()) {
        (Ok(pieces), Ok(steps), Ok(workers)) => Ok(Task {
            pieces,
            most: pieces,
            steps,
            workers,
        }),
        _ => Err(io::Error::from(ErrorKind::InvalidInput)),
    }
}

// The arguments.
fn words_of(rt: &HostRuntime) -> io::Result<Vec<String>> {
    let words = env::args(rt)?.skip(1).collect(rt.alloc());
    words.map_err(|_| io::Error::from(ErrorKind::OutOfMemory))
}

fn main(rt: HostRuntime) -> ExitCode {
    let task = words_of(&rt).and_then(|words| task_of(&words));
    let handled = match task {
        Ok(task) => handle(&rt, rt.alloc(), task),
        Err(error) => Err(error),
    };
    match handled {
        Ok(()) => ExitCode::SUCCESS,
        Err(error) => {
            // The status tells of the fault where this line cannot be written.
            let _ = eprintln!(rt; "ppq_model: {error}");
            ExitCode::FAILURE
        }
    }
}
