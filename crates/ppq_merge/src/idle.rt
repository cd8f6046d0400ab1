//! Workers who have no piece.
ghost use Rattle.std.specs.Prelude.{◌+◌, ◌<◌, ◌^◌};
ghost use Rattle.std.specs.Thread.{IsSync};

use ppq_outside::Gate;
use std::thread::{Threads, join_mut};

// Whether a gate has no bytes. It keeps nothing then, so it cannot hold a worker until another one comes,
// and an idle worker needs no thread to enter it.
pub(crate) fn has_no_bytes<G: Gate>(gate: &G) -> bool {
    size_of_val(gate) == 0
}

// Lets so many workers enter the gate one after the other, the first of whom has the number `first`.
pub(crate) fn enter_in_turn<G: Gate>(gate: &G, first: u32, count: u32)
    requires { first + count < 2 ^ 32 }
{
    for worker in first..first + count {
        gate.enter(worker);
    }
}

// Lets so many workers enter the gate, the first of whom has the number `first`, each on a thread of
// its own.
#[cycle(idle)]
pub(crate) fn enter_all<H: Threads + Sync, G: Gate>(rt: &H, gate: &G, first: u32, count: u32)
    requires { first + count < 2 ^ 32 }
{
    if count == 0 {
        return;
    }
    if count == 1 {
        gate.enter(first);
        return;
    }
    let half = count / 2;
    let top = first + half;
    let rest = count - half;
    join_mut(
        rt,
        &mut ||
            requires { IsSync H.row × IsSync G.row × (first + half < 2 ^ 32) }
        { enter_all(rt, gate, first, half) },
        &mut ||
            requires { IsSync H.row × IsSync G.row × (top + rest < 2 ^ 32) }
        { enter_all(rt, gate, top, rest) },
    );
}
