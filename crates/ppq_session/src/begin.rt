//! The beginning of a session.
ghost use Rattle.std.specs.Prelude.{◌≡◌, ℕ, Some, None, Err, IfOk, IfErr};
ghost use Rattle.ppq_session.specs.declared.fault.BeginFault.TheVariants.{Memory, Device};
ghost use Rattle.ppq_session.specs.Opened.{IsOpened, HandedOut, BulkBegan};
ghost use Rattle.ppq_queue.specs.Holding.{Holding, session_begun};
ghost use Rattle.ppq_session.specs.Sessions.{IsUnbegun};
ghost use Rattle.ppq_session.specs.Readied.{MemoryLeavesBulkReady};
ghost use Rattle.ppq_session.specs.Outfits.{ServeWorkers};
ghost use Rattle.ppq_pass.specs.ppq_pool.Seats.{count_of};

use crate::brought::Brought;
use crate::equip::equip;
use crate::outfit::Outfit;
use crate::parts::BulkParts;
use crate::share::{FirstSeats, share};
use crate::stores::{Stores, make_stores};
use crate::{BeginFault, Bulk, Pass, Shared};
use ppq_pass::{Gate, Host, QueueFault, Record, Slot};
use ppq_queue::{Queue, QueueParts};
use std::alloc::Global;

/// Begins a bulk session. Returns what stays of the queue, what all passes share, and a pass for each
/// worker.
///
/// The rest of the extract buffer is stored as a run first, and levels are merged; where few buffers of the
/// pool are idle then, runs in buffers are merged into one run in blocks. Each pass begins with
/// the records of its worker's heap. It allocates what the passes keep, and they do not allocate later.
///
/// A session is to be ended with all its passes: what is dropped before takes its blocks and records along.
///
/// Each refusal hands the queue back. `Memory` and `NoFreeBlock`: its multiset is as it was. `Memory` comes
/// after all stores and merges, so the extract buffer is empty then, levels are settled, and half of the
/// pool is idle. `Device`: the block with that number failed, now or before. The queue counts the session
/// whatever is returned.
pub fn bulk_begin<H: Host, S: Slot + Send + Sync, R: Record + Send + Sync, G: Gate>(
    rt: &H,
    alloc: Global,
    q: Queue<S, R>,
    gate: &G,
) -> Result<(Bulk<S, R>, Shared<S, R>, Vec<Pass<S, R>>), (Queue<S, R>, BeginFault)>
where
    H::Dir: Send,
    ensures begun { IfOk result (λ r. BulkBegan S.shown q r.0 r.1 r.2.items) }
    ensures refused { IfErr result (λ e. IsUnbegun q q e.0 e.1) }
    ensures memory { IfErr result (λ e. MemoryLeavesBulkReady q e.0 e.1) }
    ensures latched { (number : ℕ) → q.failed ≡ Some number → result ≡ Err (session_begun q, Device number) }
{
    let mut q = q;
    match q.begin_session(rt, true, gate) {
        Ok(()) => hand_out(alloc, q),
        Err(QueueFault::NoFreeBlock) => Err((q, BeginFault::NoFreeBlock)),
        Err(QueueFault::Device { number }) => Err((q, BeginFault::Device { number })),
    }
}

/// Begins a session of a queue whose extract buffer is empty, with its runs as they are. The passes have
/// the queue's heaps in their order. `Err` hands the queue back as it was; it is returned only if an
/// allocation failed.
pub fn hand_out<S: Slot + Send + Sync, R: Record + Send + Sync>(
    alloc: Global,
    q: Queue<S, R>,
) -> Result<(Bulk<S, R>, Shared<S, R>, Vec<Pass<S, R>>), (Queue<S, R>, BeginFault)>
    requires sound { q.failed ≡ None }
    requires emptied { q.in_extract ≡ 0 }
    ensures handed { IfOk result (λ r. HandedOut S.shown q r.0 r.1 r.2.items) }
    ensures back { IfErr result (λ e. e ≡ (q, Memory)) }
{
    let mut parts = q.into_parts();
    let free = parts.supply.free_slots();
    let idle = parts.supply.idle_buffers();
    let Ok(stores) = make_stores(alloc, &parts.sizes, free, idle) else {
        return Err((Queue::from_parts(parts), BeginFault::Memory));
    };
    let Stores {
        slots,
        buffers,
        outfits,
        passes,
        brought,
    } = stores;
    match share(alloc, &mut parts.supply, slots, buffers) {
        Ok(session) => Ok(deal_out(parts, session, outfits, passes, brought)),
        Err(_) => Err((Queue::from_parts(parts), BeginFault::Memory)),
    }
}

// A pass for each heap, and what stays, of the parts of a queue whose free slots and idle buffers are
// out.
fn deal_out<S: Slot + Send + Sync, R: Record + Send + Sync>(
    parts: QueueParts<S, R>,
    session: FirstSeats<S, R>,
    outfits: Vec<Outfit<S, R>>,
    passes: Vec<Pass<S, R>>,
    brought: Vec<Brought<S, R>>,
) -> (Bulk<S, R>, Shared<S, R>, Vec<Pass<S, R>>)
    requires opened { (q : Holding R) × IsOpened S.shown R.Ord.cmp R.record_of R.WIDTH q parts session }
    requires serve { ServeWorkers parts.sizes (count_of session.pool_seat.pool) outfits.items passes brought }
    ensures { (q : Holding R) → IsOpened S.shown R.Ord.cmp R.record_of R.WIDTH q parts session → HandedOut S.shown q result.0 result.1 result.2.items }
{
    let QueueParts {
        sizes,
        heaps,
        body,
        supply,
        extract,
        sources,
        count,
        peak,
        failed: _,
        limited,
        counts,
        slots,
    } = parts;
    let mut body = body;
    let mut session = session;
    let mut passes = passes;
    let (mut heaps, tree) = heaps.into_parts();
    // the last heap of the list gets the first pass
    heaps.reverse();
    equip(
        sizes,
        &mut heaps,
        outfits,
        &mut body.lanes.idle,
        &mut session,
        &mut passes,
    );
    let FirstSeats {
        shared,
        row_seat,
        pool_seat,
    } = session;
    let bulk = Bulk::of(BulkParts {
        sizes,
        heaps,
        tree,
        body,
        supply,
        extract,
        sources,
        count,
        peak,
        limited,
        counts,
        slots,
        row_seat,
        pool_seat,
        brought,
    });
    (bulk, shared, passes)
}
