//! Threads that push into one queue beside each other, and a horizon up to which its owner pops meanwhile.
//!
//! In a bulk session four threads push 50,000 events each. In a limit session then the events below a horizon are
//! taken in their order, and each of them makes a later one, which a thread pushes while the next ones are taken. At
//! the end the queue is drained. `bench/expected.py threads` prints the same from a heap of Python.
#![tactic(auto)]

ghost use Rattle.std.specs.Prelude.{◌≡◌, IfOk};

mod bulk;
mod fault;
mod horizon;
mod seen;

use bulk::push_by_threads;
use fault::Fault;
use horizon::take_below;
use ppq_checked::{Checked, CheckedRack};
use ppq_device::{Host, OpenGate, Pair, Queue, Sizes, Slot, make_blocks};
use ppq_edge::{FileRack, FileSlot};
use seen::Seen;
use std::alloc::Global;
use std::process::ExitCode;

// The time from which on events wait in the limit session.
const HORIZON: u64 = 1 << 39;

// The time at which an event is due, and its number.
type Events = Queue<Checked<FileSlot>, Pair>;

// Opens a queue for four workers over the blocks of a device file.
fn open<H: Host>(rt: &H, alloc: Global) -> Result<Events, Fault>
    ensures { IfOk result (λ events. events.sizes.workers ≡ 4) }
{
    let sizes = Sizes::new(4, 256, 4, 40000, 2500).unwrap();
    let mut rack = CheckedRack::new(FileRack::new());
    match make_blocks::<Pair, _, _>(rt, alloc, &mut rack, "ppq_threads.device", sizes) {
        Ok(blocks) => Queue::open(alloc, sizes, blocks).map_err(|_| Fault::Open),
        Err(_) => Err(Fault::Device),
    }
}

// Takes all events out of a queue, in their order.
fn drain<H: Host>(rt: &H, events: &mut Events) -> Result<Seen, Fault>
where
    H::Dir: Send,
{
    let mut seen = Seen::none();
    for _event in 0..events.size() {
        match events.pop(rt, &OpenGate) {
            Ok(Some(event)) => seen.add(event),
            Ok(None) => break,
            Err(_) => return Err(Fault::Queue),
        }
    }
    Ok(seen)
}

// Runs both sessions and prints what they did.
fn run<H: Host>(rt: &H, alloc: Global) -> Result<(), Fault>
where
    H::Dir: Send,
{
    let events = push_by_threads(rt, alloc, open(rt, alloc)?)?;
    println!(rt; "{} events by 4 threads", events.size()).map_err(|_| Fault::Print)?;
    let (mut events, taken) = take_below(rt, alloc, events, HORIZON)?;
    println!(rt; "below {HORIZON}: {taken}").map_err(|_| Fault::Print)?;
    let left = drain(rt, &mut events)?;
    let written = events.close().iter().any(|block| block.writes() > 0);
    println!(rt; "after it: {left}, device used: {written}").map_err(|_| Fault::Print)
}

fn main(rt: HostRuntime) -> ExitCode {
    match run(&rt, rt.alloc()) {
        Ok(()) => ExitCode::SUCCESS,
        Err(fault) => {
            // The status tells of the fault where this line cannot be written.
            let _ = eprintln!(rt; "ppq_threads: {fault}");
            ExitCode::FAILURE
        }
    }
}
