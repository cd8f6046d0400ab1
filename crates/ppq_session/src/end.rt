//! The end of a session.
ghost use Rattle.std.specs.Prelude.{◌≡◌, List};
ghost use Rattle.ppq_pass.specs.Passed.{PassHolding};
ghost use Rattle.ppq_session.specs.BulkSession.{AreOf, BulkEnded, keys_of, shared_by};
ghost use Rattle.ppq_session.specs.Apart.{IsJoined, BulkHeld, staying};
ghost use Rattle.ppq_session.specs.Ends.{SessionEnded};

use crate::bringing::bring_all;
use crate::close::close;
use crate::gather::{first_fault, gather_all};
use crate::parts::BulkParts;
use crate::rejoining::rejoin;
use crate::{Bulk, SessionEnd};
use ppq_pass::{Gate, Host, Pass, Record, Shared, Slot};
use ppq_queue::Queue;

/// Ends a bulk session: the queue with the records that it had and those that its passes accepted. All
/// passes of the session come, in any order.
///
/// The runs of the passes become runs of the queue, whose levels are merged at last. What the passes
/// counted, records that they accepted and stores that they began, comes on top of the queue's counts. It
/// allocates nothing.
///
/// `Whole`: the queue has all records, and its levels are settled: at most 64 runs are in blocks.
/// `Stopped(NoFreeBlock)`: it has all records, but a merge of levels found no blocks. `Stopped(Device)`: a
/// call of the block with that number failed, in a pass or now; records may be lost, but no slot. If several
/// parts met a fault, the number is that of the first pass in the order of the list that met one, and else
/// that of the merges.
pub fn bulk_end<H: Host, S: Slot + Send + Sync, R: Record + Send + Sync, G: Gate>(
    rt: &H,
    b: Bulk<S, R>,
    shared: Shared<S, R>,
    passes: Vec<Pass<S, R>>,
    gate: &G,
) -> (Queue<S, R>, SessionEnd)
where
    H::Dir: Send,
    requires of { AreOf b (keys_of passes.items) }
    requires shared { shared ≡ shared_by b }
    ensures { BulkEnded S.shown b passes.items result.0 result.1 }
{
    let mut parts = b.into_parts();
    bring_all(&mut parts, &shared, passes);
    end_joined(rt, parts, 0, None, shared, gate)
}

/// Ends a session all passes of which were brought: the queue with the records of the parts that it left
/// and those of all passes.
///
/// `popped` records were taken out in the session, which count in the queue's peak. `failed` is the number
/// of a slot a call of which failed outside the passes.
pub fn end_joined<H: Host, S: Slot + Send + Sync, R: Record + Send + Sync, G: Gate>(
    rt: &H,
    parts: BulkParts<S, R>,
    popped: u64,
    failed: Option<u32>,
    shared: Shared<S, R>,
    gate: &G,
) -> (Queue<S, R>, SessionEnd)
where
    H::Dir: Send,
    requires { (q : BulkHeld S R) × (passes : List (PassHolding S R)) × IsJoined S.shown R.Ord.cmp R.record_of R.WIDTH shared q popped failed passes parts }
    ensures { (q : BulkHeld S R) (passes : List (PassHolding S R)) → IsJoined S.shown R.Ord.cmp R.record_of R.WIDTH shared q popped failed passes parts → SessionEnded S.shown (staying S.shown R.record_of R.WIDTH q popped failed) passes result.0 result.1 }
{
    let first = first_fault(parts.brought.as_slice(), failed);
    let (mut closed, brought) = close(parts, failed, shared);
    gather_all(&mut closed, brought);
    let mut queue = rejoin(closed, popped, first);
    match queue.settle(rt, gate) {
        Ok(()) => (queue, SessionEnd::Whole),
        Err(fault) => (queue, SessionEnd::Stopped(fault)),
    }
}
