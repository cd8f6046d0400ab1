//! The beginning of a limit session.
ghost use Rattle.std.specs.Prelude.{◌≡◌, ℕ, Some, Err, IfOk, IfErr};
ghost use Rattle.ppq_session.specs.declared.fault.BeginFault.TheVariants.{Device};
ghost use Rattle.ppq_session.specs.Sessions.{IsUnbegun};
ghost use Rattle.ppq_session.specs.Readied.{MemoryLeavesLimitReady};
ghost use Rattle.ppq_session.specs.LimitSessions.{begun_in};
ghost use Rattle.ppq_session.specs.LimitSession.{IsAllRuns, front_begun, CanLimit, GotLimit, LimitBegan};

use crate::begin::hand_out;
use crate::{BeginFault, Bulk, Front, LimitPass};
use ppq_pass::{Gate, Host, Pass, QueueFault, Record, Shared, Slot};
use ppq_queue::Queue;
use std::alloc::Global;

/// Begins a limit session. Returns what the owner keeps, what all passes share, and a pass without records
/// for each worker.
///
/// The rest of the extract buffer and each heap that is not empty are sorted and stored as runs first, and
/// levels are merged. It allocates what the passes keep, and nothing is allocated later.
///
/// Each refusal hands the queue back. `Memory` and `NoFreeBlock`: its multiset is as it was. `Memory` comes
/// after all stores and merges, so all records are in runs then, and levels are settled. `Device`: the
/// block with that number failed, now or before. The queue counts the session whatever is returned.
pub fn limit_begin<H: Host, S: Slot + Send + Sync, R: Record + Send + Sync, G: Gate>(
    rt: &H,
    alloc: Global,
    q: Queue<S, R>,
    l: R,
    gate: &G,
) -> Result<(Front<S, R>, Shared<S, R>, Vec<LimitPass<S, R>>), (Queue<S, R>, BeginFault)>
where
    H::Dir: Send,
    ensures begun { IfOk result (λ r. LimitBegan q l r.0 r.1 r.2.items) }
    ensures refused { IfErr result (λ e. IsUnbegun q (begun_in q) e.0 e.1) }
    ensures memory { IfErr result (λ e. MemoryLeavesLimitReady q e.0 e.1) }
    ensures latched { (number : ℕ) → q.failed ≡ Some number → result ≡ Err (begun_in q, Device number) }
{
    let mut q = q;
    match q.store_heaps(rt, gate) {
        Ok(()) => {}
        Err(QueueFault::NoFreeBlock) => return Err((q, BeginFault::NoFreeBlock)),
        Err(QueueFault::Device { number }) => return Err((q, BeginFault::Device { number })),
    }
    let Ok(list) = Vec::with_capacity(alloc, 64) else {
        return Err((q, BeginFault::Memory));
    };
    match hand_out(alloc, q) {
        Ok((bulk, shared, passes)) => {
            bulk.known();
            let passes = limit_passes(passes, list, l);
            Ok((front_of(bulk, l), shared, passes))
        }
        Err(refused) => Err(refused),
    }
}

// A front of what stays of a queue without records in heaps.
fn front_of<S: Slot + Send + Sync, R: Record + Send + Sync>(
    bulk: Bulk<S, R>,
    limit: R,
) -> Front<S, R>
    requires { IsAllRuns bulk }
    ensures { result ≡ front_begun bulk limit }
{
    Front::of(bulk.into_parts(), limit)
}

// Limit passes of passes without records, the last pass first.
fn limit_passes<S: Slot + Send + Sync, R: Record + Send + Sync>(
    passes: Vec<Pass<S, R>>,
    list: Vec<LimitPass<S, R>>,
    limit: R,
) -> Vec<LimitPass<S, R>>
    requires { CanLimit passes.items list }
    ensures { GotLimit limit passes.items result.items }
{
    let mut passes = passes;
    let mut list = list;
    'limiting: while let Some(pass) = passes.pop() {
        list.push_reserved(LimitPass::of(pass, limit));
    }
    list
}
