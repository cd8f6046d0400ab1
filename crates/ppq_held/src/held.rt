//! Events in a queue.
use ppq_checked::{Checked, CheckedRack};
use ppq_device::{Host, OpenGate, Out, Pair, Queue, QueueFault, Sizes, make_blocks};
use ppq_edge::{FileRack, FileSlot};
use std::alloc::Global;
use std::io;
use std::io::ErrorKind;
use std::marker::Model;

// Events in a queue over a device file whose blocks are summed, and a list of those that were taken last. Contracts see
// what was taken, as one number.
#[derive(Drop)]
pub(crate) struct Held {
    queue: Queue<Checked<FileSlot>, Pair>,
    list: Out<Pair>,
    // The number that was drawn last.
    drawn: u64,
    // The events that were taken, in their order, as one number.
    taken: u64,
}

impl Model for Held {
    ghost use Rattle.std.specs.Prelude.{◌≡◌, ℕ};
    ghost use Rattle.ppq_budget.specs.Sizes.{batch_of};

    ghost Value = { ℕ };

    ghost view = { λ h. h.taken };

    ghost invariant = { λ h. h.list.room ≡ batch_of h.queue.sizes };
}

// A call of the queue that was refused, as an error.
fn refused(fault: QueueFault) -> io::Error {
    match fault {
        QueueFault::NoFreeBlock => io::Error::from(ErrorKind::StorageFull),
        QueueFault::Device { .. } => io::Error::from(ErrorKind::Other),
    }
}

impl Held {
    // No event.
    pub(crate) fn open<H: Host>(
        rt: &H,
        alloc: Global,
        device: &str,
        sizes: Sizes,
    ) -> io::Result<Held> {
        let mut rack = CheckedRack::new(FileRack::new());
        let Ok(blocks) = make_blocks::<Pair, _, _>(rt, alloc, &mut rack, device, sizes) else {
            return Err(io::Error::from(ErrorKind::Other));
        };
        let Ok(list) = Out::new(alloc, &sizes) else {
            return Err(io::Error::from(ErrorKind::OutOfMemory));
        };
        match Queue::open(alloc, sizes, blocks) {
            Ok(queue) => Ok(Held {
                queue,
                list,
                drawn: 7,
                taken: 0,
            }),
            Err(_) => Err(io::Error::from(ErrorKind::OutOfMemory)),
        }
    }

    // The next number of Marsaglia's generator that shifts by 13, 7 and 17.
    fn draw(&mut self) -> u64 {
        let mut next = self.drawn;
        next ^= next << 13;
        next ^= next >> 7;
        next ^= next << 17;
        self.drawn = next;
        next
    }

    // Adds an event that is later than this time by a drawn number below 2^48.
    pub(crate) fn add<H: Host>(&mut self, rt: &H, time: u64) -> io::Result<()>
    where
        H::Dir: Send,
    {
        let key = time.wrapping_add(self.draw() >> 16);
        let value = self.draw();
        match self.queue.push(rt, Pair { key, value }, &OpenGate) {
            Ok(()) => Ok(()),
            Err((_, fault)) => Err(refused(fault)),
        }
    }

    // Takes the first so many events, but no more than a block for each worker; returns how many.
    pub(crate) fn take<H: Host>(&mut self, rt: &H, count: u64) -> io::Result<u64>
    where
        H::Dir: Send,
    {
        match self.queue.bulk_pop(rt, count, &mut self.list, &OpenGate) {
            Ok(count) => Ok(count),
            Err(fault) => Err(refused(fault)),
        }
    }

    // Notes an event of those that were taken last, and returns its time; `None` if there is none with this number.
    pub(crate) fn note(&mut self, number: u64) -> Option<u64> {
        let item = *self.list.as_slice().get(number as usize)?;
        let taken = self.taken.wrapping_mul(31).wrapping_add(item.key);
        self.taken = taken.wrapping_add(item.value);
        Some(item.key)
    }

    // Lets go of the queue, and returns what was taken as one number.
    pub(crate) fn close(self) -> u64 {
        let _blocks = self.queue.close();
        self.taken
    }
}
