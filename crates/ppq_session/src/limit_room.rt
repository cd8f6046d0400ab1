//! Room for the buffers of the pool, whatever a front did.
ghost use Rattle.std.specs.Prelude.{◌≡◌, ℕ, ◌<◌, ◌+◌, ◌-◌, ◌^◌, length};
ghost use Rattle.ppq_queue.specs.Slots.{with_pool};
ghost use Rattle.ppq_session.specs.FrontState.{CanMakeRoom, HasMadeRoom};
ghost use Rattle.ppq_session.specs.Emptied.{emptied};

use crate::parts::BulkParts;
use ppq_pass::{BufList, OwnerLists, Record, Slot, Supply};

/// The parts of a front, with room for the buffers that come back from the pool. There is room unless the
/// front met a fault: then its own idle buffers go to the lanes.
pub fn with_room<S: Slot + Send + Sync, R: Record + Send + Sync>(
    parts: BulkParts<S, R>,
    failed: Option<u32>,
) -> BulkParts<S, R>
    requires { (popped : ℕ) × CanMakeRoom S.shown R.WIDTH parts popped failed }
    ensures { HasMadeRoom S.shown R.WIDTH parts failed result }
{
    match failed {
        None => parts,
        Some(_) => emptied(parts),
    }
}

// The parts with all their own idle buffers in the lanes.
fn emptied<S: Slot + Send + Sync, R: Record + Send + Sync>(
    parts: BulkParts<S, R>,
) -> BulkParts<S, R>
    requires { length parts.body.lanes.idle + parts.supply.sure_buffers < 2 ^ 32 - 1 }
    ensures idle { length result.body.lanes.idle ≡ length parts.body.lanes.idle + parts.supply.sure_buffers }
    ensures rest { result ≡ emptied result.body.lanes.idle parts }
{
    let mut parts = parts;
    empty_pool(&mut parts.supply, &mut parts.body.lanes.idle);
    parts
}

// Moves all idle buffers of a supply to the end of a list.
fn empty_pool<S: Slot, R: Record>(supply: &mut OwnerLists<S, R>, idle: &mut BufList<R>)
    requires few { length idle.old + supply.old.sure_buffers < 2 ^ 32 - 1 }
    ensures idle { length idle.new ≡ length idle.old + supply.old.sure_buffers }
    ensures stock { supply.new ≡ with_pool supply.old 0 (supply.old.buffer_room + supply.old.sure_buffers) }
{
    'emptying: while supply.idle_buffers() > 0 {
        let buf = supply.take_buffer().unwrap();
        idle.push_back(buf);
    }
}
