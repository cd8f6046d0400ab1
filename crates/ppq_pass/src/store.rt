//! Storing a sorted heap as a run of a pass.
ghost use Rattle.std.specs.Prelude.{◌<◌, ℕ, length, OnOk, IsErrOf};
ghost use Rattle.ppq_spill.specs.Costing.{StorePays};
ghost use Rattle.ppq_spill.specs.Storing.{MayStore, RunsAscend, IsStored, NoneFree, DeviceFailed};
ghost use Rattle.ppq_pass.specs.Passing.{IsPass};
ghost use Rattle.ppq_pass.specs.PassState.{stock_of};
ghost use Rattle.ppq_pass.specs.PassStore.{StoreKept};

use crate::{PassParts, PassSupply, Shared};
use ppq_extract::{Host, Slot, StoreFault};
use ppq_pool::Record;
use ppq_spill::{PassBody, store_sorted};

/// Stores an ascending list as one more run of a pass, by a supply that is made for this call.
pub fn store_run<H: Host, S: Slot + Send, R: Record + Send>(
    rt: &H,
    shared: &Shared<S, R>,
    body: &mut PassBody<S, R>,
    parts: PassParts<S, R>,
    sorted: &[R],
) -> (PassParts<S, R>, Result<(), StoreFault>)
where
    H::Dir: Send,
    requires some { 0 < length sorted.now }
    requires of { IsPass S.shown R.WIDTH shared.now parts.row_seat parts.pool_seat parts.stash parts.numbers parts.block parts.dry parts.scant }
    requires room { MayStore S.shown R.WIDTH (length sorted.now) body.old (stock_of S.shown parts) }
    requires ascend { RunsAscend R.Ord.cmp S.shown sorted.now body.old (stock_of S.shown parts) }
    ensures kept { StoreKept S.shown R.WIDTH (length sorted.now) shared.now body.old body.new parts result.0 }
    ensures counted { StorePays S.shown result.1 (length sorted.now) body.old body.new (stock_of S.shown parts) (stock_of S.shown result.0) }
    ensures stored { OnOk result.1 (IsStored R.Ord.cmp R.record_of R.WIDTH S.shown sorted.now body.old body.new (stock_of S.shown parts) (stock_of S.shown result.0)) }
    ensures none_free { IsErrOf result.1 StoreFault.NoFreeBlock → NoneFree (length sorted.now) body.old body.new (stock_of S.shown parts) (stock_of S.shown result.0) }
    ensures device { (number : ℕ) → IsErrOf result.1 (StoreFault.Device number) → DeviceFailed S.shown number body.new (stock_of S.shown result.0) }
{
    let mut supply = PassSupply::from_parts(shared, parts);
    let answer = store_sorted(rt, body, &mut supply, sorted);
    (supply.into_parts(), answer)
}
