//! What one node does with its notes and its edges.
ghost use Rattle.std.specs.Prelude.{◌≡◌, None, OnOk, IfOk, IfErr};
ghost use Rattle.ppq_queue.specs.Kept.{AreQuiet};
ghost use Rattle.ppq_queue.specs.Shown.{AllTell};
ghost use Rattle.ppq_sweep.specs.Notes.{Hears, TellsAll};
ghost use Rattle.ppq_sweep.specs.Queues.{IsSound, TakesOnly, Refuses, MovesOn, OneRefuses};

use crate::taking::take_up_to;
use ppq_queue::{Gate, Host, Pair, Queue, QueueFault, Slot};

// Takes the notes of a node, and any of nodes before it, and returns the node's level.
pub(crate) fn hear<H: Host, S: Slot + Send + Sync, G: Gate>(
    rt: &H,
    notes: &mut Queue<S, Pair>,
    node: u64,
    gate: &G,
) -> Result<u64, QueueFault>
where
    H::Dir: Send,
    ensures takes { TakesOnly notes.old notes.new }
    ensures heard { IfOk result (λ level. AllTell notes.old.slots → Hears node notes.old.bag notes.new.bag level) }
    ensures sound { OnOk result (IsSound notes.old notes.new) }
    ensures refused { IfErr result (Refuses notes.old notes.new) }
{
    let mut level: u64 = 0;
    'hearing: loop {
        match take_up_to(rt, notes, node, gate)? {
            None => return Ok(level),
            Some(note) => level = level.max(note.value.saturating_add(1)),
        }
    }
}

// Takes the edges of a node, and any of nodes before it, and tells the node's level to where they lead.
pub(crate) fn tell<H: Host, S: Slot + Send + Sync, G: Gate>(
    rt: &H,
    edges: &mut Queue<S, Pair>,
    notes: &mut Queue<S, Pair>,
    node: u64,
    level: u64,
    gate: &G,
) -> Result<(), QueueFault>
where
    H::Dir: Send,
    requires sound { notes.old.failed ≡ None }
    ensures moves { MovesOn edges.old edges.new notes.old notes.new }
    ensures told { OnOk result (AllTell edges.old.slots → AllTell notes.old.slots → TellsAll node level edges.old.bag edges.new.bag notes.old.bag notes.new.bag) }
    ensures edges { OnOk result (AreQuiet edges.old.slots edges.new.slots) }
    ensures notes { OnOk result (AreQuiet notes.old.slots notes.new.slots) }
    ensures refused { IfErr result (OneRefuses edges.old edges.new notes.old notes.new) }
{
    'telling: loop {
        let Some(edge) = take_up_to(rt, edges, node, gate)? else {
            return Ok(());
        };
        let note = Pair {
            key: edge.value,
            value: level,
        };
        if let Err((_note, fault)) = notes.push(rt, note, gate) {
            return Err(fault);
        }
    }
}
