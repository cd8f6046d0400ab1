//! The end of a limit session.
ghost use Rattle.std.specs.Prelude.{◌≡◌};
ghost use Rattle.ppq_session.specs.LimitSession.{AreLimited, LimitEnded, shared_of};

use crate::bringing::bring_all;
use crate::end::end_joined;
use crate::limit_room::with_room;
use crate::{Front, LimitPass, SessionEnd};
use ppq_pass::{Gate, Host, Record, Shared, Slot, record_laws};
use ppq_queue::Queue;

/// Ends a limit session: the queue with the records that the front has left and those that the passes
/// accepted. All passes of the session come, in any order.
///
/// The runs of the passes become runs of the queue, which costs a few steps for each run, block and buffer
/// of theirs; then levels are merged, which reads and writes their blocks once a level. What the passes counted
/// comes on top of the queue's counts. It does not allocate.
///
/// `Whole`: the queue has all records, and its levels are settled: at most 64 runs are in blocks.
/// `Stopped(NoFreeBlock)`: it has all records, but a merge of levels found no blocks. `Stopped(Device)`: a
/// call of the block with that number failed, in the front, in a pass or now; records may be lost, but no
/// slot. If several parts met a fault, the number is that of the first pass in the order of the list that met
/// one, and else that of the front, and else that of the merges.
pub fn limit_end<H: Host, S: Slot + Send + Sync, R: Record + Send + Sync, G: Gate>(
    rt: &H,
    front: Front<S, R>,
    shared: Shared<S, R>,
    passes: Vec<LimitPass<S, R>>,
    gate: &G,
) -> (Queue<S, R>, SessionEnd)
where
    H::Dir: Send,
    requires of { AreLimited front passes.items }
    requires shared { shared ≡ shared_of front }
    ensures { LimitEnded S.shown front passes.items result.0 result.1 }
{
    record_laws::<R>();
    let (parts, popped, failed) = front.into_parts();
    let mut parts = with_room(parts, failed);
    bring_all(&mut parts, &shared, passes);
    end_joined(rt, parts, popped, failed, shared, gate)
}
