//! The smallest record of a queue is taken if its key is small enough.
ghost use Rattle.std.specs.Prelude.{◌<◌, OnOk, IfOk, IfErr, IsSome};
ghost use Rattle.ppq_queue.specs.Shown.{AllTell};
ghost use Rattle.ppq_sweep.specs.Notes.{TookUpTo};
ghost use Rattle.ppq_sweep.specs.Queues.{IsSound, TakesOnly, Refuses};

use ppq_queue::{Gate, Host, Pair, Queue, QueueFault, Slot};

// Takes the smallest record out if its key is at most this one.
pub(crate) fn take_up_to<H: Host, S: Slot + Send + Sync, G: Gate>(
    rt: &H,
    queue: &mut Queue<S, Pair>,
    key: u64,
    gate: &G,
) -> Result<Option<Pair>, QueueFault>
where
    H::Dir: Send,
    ensures takes { TakesOnly queue.old queue.new }
    ensures taken { IfOk result (λ answer. AllTell queue.old.slots → TookUpTo key queue.old.bag queue.new.bag answer) }
    ensures fewer { IfOk result (λ answer. IsSome answer → queue.new.size < queue.old.size) }
    ensures sound { OnOk result (IsSound queue.old queue.new) }
    ensures refused { IfErr result (Refuses queue.old queue.new) }
{
    match queue.top(rt, gate)? {
        Some(first) if first.key <= key => queue.pop(rt, gate),
        _ => Ok(None),
    }
}
