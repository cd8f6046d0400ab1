//! The extract buffer of a front, refilled.
ghost use Rattle.std.specs.Prelude.{OnOk, IfErr};
ghost use Rattle.ppq_pass.specs.ppq_spill.Costing.{Pays};
ghost use Rattle.ppq_session.specs.Apart.{apart_slots, apart_account};
ghost use Rattle.ppq_session.specs.FrontState.{CanRefill, FrontRefilled, IsRefillRefusal, RefillStays};

use crate::parts::BulkParts;
use ppq_pass::{Gate, Host, Record, Slot, StoreFault, record_laws};

/// Takes the smallest records of the runs that are below a limit into the empty extract buffer, as many as
/// it has room for. The slots and buffers that get free go to the front's own lists. What stays empty
/// says that no record of a run is below the limit.
pub fn refill_front<H: Host, S: Slot + Send + Sync, R: Record + Send + Sync, G: Gate>(
    rt: &H,
    q: &mut BulkParts<S, R>,
    limit: R,
    gate: &G,
) -> Result<(), StoreFault>
where
    H::Dir: Send,
    requires { CanRefill S.shown R.Ord.cmp R.record_of R.WIDTH q.old limit }
    ensures refilled { OnOk result (FrontRefilled S.shown R.Ord.cmp R.record_of R.WIDTH limit q.old q.new) }
    ensures failed { IfErr result (IsRefillRefusal (apart_slots S.shown q.new)) }
    ensures stays { RefillStays S.shown R.WIDTH q.old q.new }
    ensures counted { Pays result 0 0 (apart_account S.shown q.old) (apart_account S.shown q.new) }
{
    record_laws::<R>();
    let answer = q.extract.refill(
        rt,
        &mut q.body.runs,
        &mut q.body.lanes,
        &mut q.sources,
        &mut q.supply,
        Some(limit),
        gate,
    );
    // The number is not used: the call's clause says that the supply still has no row, as the proof needs.
    let _free = q.supply.free_slots();
    answer
}
