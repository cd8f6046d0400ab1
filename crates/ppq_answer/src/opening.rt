//! Opens a queue, and answers requests over it.
ghost use Rattle.std.specs.Prelude.{map};
ghost use Rattle.ppq_engine.specs.ppq_queue.Holding.{AreNewSlots};
ghost use Rattle.ppq_answer.specs.Answers.{ServesTalk};

use crate::ending::finish;
use crate::outcome::{Answered, Outcome};
use crate::talk::talk;
use ppq_budget::Sizes;
use ppq_engine::{Desk, End, Form, Machine, Queue, World, unopened};
use ppq_frames::{Incoming, Source};
use ppq_record::record_laws;
use ppq_requests::{Fields, Gate, Host, Sink, Slot};
use std::alloc::Global;

/// Answers the requests of a source, as long as they come, on a queue of these sizes over these blocks, which all come
/// back. The first frame, which names the records, was taken from `incoming` before; its answer is put once the queue is
/// open. Each request is read whole before any of it is executed, and its answer is put before the next one is looked
/// at. Everything is allocated before the first answer.
///
/// The requests came whole, one behind the other, and the sink took a prefix of what their commands print, with `size`
/// behind those of each request; all of it after `Done`, `BadRequest` and `ReadFault`. Each outcome has its cause:
///
/// - `Done`: the source is at its end, and nothing waits. No call of a block failed.
/// - `BadRequest`: the frame with that number, the first frame being number 1, is none of operations, is too long, or is
///   cut off by the end of the source; or the number is 2^64 - 1. Nothing of it was executed.
/// - `ReadFault`, `WriteFault`: the count of faults of the source or the sink rose.
/// - `DeviceFault`: the block with that number failed.
/// - `NoFreeBlock`: the device has too few blocks for the records; at least what all commands in front of those that there
///   is no room for print was taken.
/// - `BudgetTooSmall`, `Memory`: the queue was not opened. Nothing was read or written.
///
/// What is said of the output holds where the contents of the blocks are visible to proofs.
pub fn serve<H: Host, S: Slot + Send + Sync, R: Fields + Send + Sync, I: Source, O: Sink, G: Gate>(
    rt: &H,
    alloc: Global,
    sizes: Sizes,
    slots: Vec<S>,
    incoming: &mut Incoming,
    source: &mut I,
    out: &mut O,
    gate: &G,
) -> Answered<S>
where
    H::Dir: Send,
    requires slots { AreNewSlots sizes R.WIDTH (map S.shown slots.items) }
    ensures { ServesTalk R.Fields I.Source sizes (map S.shown slots.items) (map S.shown result.blocks.items) source.old source.new incoming.old incoming.new (O.told out.old) (O.told out.new) (O.faults out.old) (O.faults out.new) result.outcome }
{
    record_laws::<R>();
    let Ok(desk) = Desk::<R>::new(alloc, &sizes) else {
        return Answered {
            outcome: Outcome::Ended { end: End::Memory },
            blocks: slots,
        };
    };
    let queue: Queue<S, R> = match Queue::open(alloc, sizes, slots) {
        Ok(queue) => queue,
        Err((blocks, fault)) => {
            return Answered {
                outcome: Outcome::Ended {
                    end: unopened(fault),
                },
                blocks,
            };
        }
    };
    queue.known();
    let world = World {
        rt,
        alloc,
        gate,
        form: Form::Bytes,
    };
    let mut machine = Machine { queue, desk };
    let halt = talk(&mut machine, &world, incoming, source, out);
    let Machine { queue, desk } = machine;
    let mut gathered = desk.gathered;
    let outcome = finish(rt, halt, &mut gathered, out);
    Answered {
        outcome,
        blocks: queue.close(),
    }
}
