//! Queues over a device file.
ghost use Rattle.std.specs.Prelude.{◌≡◌, IfOk};

use crate::load::out_of_memory;
use ppq_checked::{Checked, CheckedRack};
use ppq_device::{Host, OpenFault, OutsideFault, Pair, Queue, QueueFault, Sizes, make_blocks};
use ppq_edge::{FileRack, FileSlot};
use std::alloc::Global;
use std::io;
use std::io::ErrorKind;

// A queue of pairs over a device file whose blocks are summed.
pub(crate) type DeviceQueue = Queue<Checked<FileSlot>, Pair>;

// The sizes of a queue beside its workers and its device.
#[derive(Clone, Copy)]
pub(crate) struct Shape {
    // How many records a block has.
    pub(crate) block: u32,
    // How many blocks the heap has.
    pub(crate) heap: u32,
    // The budget in records.
    pub(crate) memory: u64,
}

// A call of the queue that was refused, as an error.
pub(crate) fn refused(fault: QueueFault) -> io::Error {
    match fault {
        QueueFault::NoFreeBlock => io::Error::from(ErrorKind::StorageFull),
        QueueFault::Device { .. } => io::Error::from(ErrorKind::Other),
    }
}

// The sizes of a queue for so many records and workers, whose device has as many blocks as are enough.
pub(crate) fn sizes_for(shape: Shape, count: u32, workers: u32) -> io::Result<Sizes> {
    match sizes_in_range(shape, count, workers) {
        Some(sizes) => Ok(sizes),
        None => Err(io::Error::from(ErrorKind::InvalidInput)),
    }
}

// The same, if each number is in its range.
fn sizes_in_range(shape: Shape, count: u32, workers: u32) -> Option<Sizes> {
    let Shape {
        block,
        heap,
        memory,
    } = shape;
    let least = Sizes::new(workers, block, heap, memory, 0)?;
    let blocks = least.room(u64::from(count)).min(65536) as u32;
    Sizes::new(workers, block, heap, memory, blocks)
}

// A block that was not made, as an error.
fn not_made(fault: OutsideFault) -> io::Error {
    match fault {
        OutsideFault::Failed => io::Error::from(ErrorKind::Other),
        OutsideFault::Memory => out_of_memory(),
    }
}

// A queue that was not opened, as an error.
fn not_opened(fault: OpenFault) -> io::Error {
    match fault {
        OpenFault::TooSmall { need: _ } => io::Error::from(ErrorKind::InvalidInput),
        OpenFault::Memory => out_of_memory(),
    }
}

// An empty queue over a device file.
pub(crate) fn open<H: Host>(
    rt: &H,
    alloc: Global,
    device: &str,
    sizes: Sizes,
) -> io::Result<DeviceQueue>
    ensures { IfOk result (λ queue. queue.sizes ≡ sizes) }
{
    let mut rack = CheckedRack::new(FileRack::new());
    match make_blocks::<Pair, _, _>(rt, alloc, &mut rack, device, sizes) {
        Ok(blocks) => Queue::open(alloc, sizes, blocks).map_err(|refused| not_opened(refused.1)),
        Err(fault) => Err(not_made(fault)),
    }
}
