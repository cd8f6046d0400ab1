//! Storing a sorted run.
ghost use Rattle.std.specs.Prelude.{◌≡◌, ◌+◌, ◌^◌, ◌<◌, [], OnOk, OnErr, IsErrOf, length, ℕ};
ghost use Rattle.ppq_fetch.specs.ppq_array.Kept.{Kept};
ghost use Rattle.ppq_fetch.specs.ppq_array.Holdings.{CanTakeBack, internal_items};
ghost use Rattle.ppq_spill.specs.Body.{held_by};
ghost use Rattle.ppq_spill.specs.Costing.{StorePays};
ghost use Rattle.ppq_spill.specs.Storing.{in_buffers, MayStore, WritesFew, HasOneSize, RoomsRest, LanesRest, IsStored, BlocksStored, NoneFree, NoSlots, RunsAscend, RunStopped, StoreFailed, SameScant, StillTell, StillUntold, StoreLeaves, StoreEnds};

use crate::PassBody;
use crate::buffers::{blocks_for, store_in_buffers};
use crate::groups::write_run;
use crate::new_array::NewArray;
use crate::slots::{draw_slots, free_slots};
use crate::writing::release_runs;
use ppq_fetch::{ExternalArray, Host, InternalArray, Record, Slot, StoreFault, Supply, free_slot};

/// Stores a list of records as one more run of a body. Where the list and the runs in buffers ascend, so
/// does the new run.
///
/// With `n` the length of the list and `m` the records of the body's runs in buffers: the run takes
/// `ceil(n / block)` buffers of the supply, and no slot is drawn or called. Where the supply has too few,
/// they are given back, and the list is merged with all runs in buffers into one run of level 0 in
/// `ceil((n + m) / block)` blocks, with nothing loaded. All its slots are drawn before the first block is
/// written. So there are at most `ceil((n + m) / block)` block writes, and no block is read. A record
/// that is merged costs a match on each level of the tree.
///
/// `Ok` only if no write failed; a write that fails is not tried again.
///
/// `NoFreeBlock` only if buffers were short, a draw returned `None`, and the supply was sure of fewer
/// slots than the blocks need. No slot was called then, and nothing has changed but the supply's counts
/// and slots and the order of its buffers: slots that were drawn are kept by the supply.
///
/// `Device` only if buffers were short and a write of the slot with that number failed; the supply keeps
/// that slot. Where several of a group failed, it is the first of them in the order of the run, which uses
/// slots in the order in which they are drawn: the blocks in front of it were written, and are one run
/// more. Records may be lost then, but no slot and no buffer.
///
/// What it writes is bounded by an account of the runs, which every later merge of levels is paid from.
pub fn store_sorted<H: Host, S: Slot + Send, R: Record + Send, P: Supply<S, R>>(
    rt: &H,
    body: &mut PassBody<S, R>,
    supply: &mut P,
    sorted: &[R],
) -> Result<(), StoreFault>
where
    H::Dir: Send,
    requires some { 0 < length sorted.now }
    requires room { MayStore S.shown R.WIDTH (length sorted.now) body.old (P.stock supply.old) }
    requires ascend { RunsAscend R.Ord.cmp S.shown sorted.now body.old (P.stock supply.old) }
    ensures kept { Kept (P.stock supply.old) (P.stock supply.new) (held_by S.shown body.old) (held_by S.shown body.new) }
    ensures takes_back { CanTakeBack S.shown (P.stock supply.new) body.new.runs.internal.items body.new.runs.external.items }
    ensures tells { StillTell S.shown body.old body.new (P.stock supply.old) (P.stock supply.new) }
    ensures untold { StillUntold S.shown body.old body.new (P.stock supply.old) (P.stock supply.new) }
    ensures home { P.home supply.new ≡ P.home supply.old }
    ensures stored { OnOk result (IsStored R.Ord.cmp R.record_of R.WIDTH S.shown sorted.now body.old body.new (P.stock supply.old) (P.stock supply.new)) }
    ensures none_free { IsErrOf result StoreFault.NoFreeBlock → NoneFree (length sorted.now) body.old body.new (P.stock supply.old) (P.stock supply.new) }
    ensures device { (number : ℕ) → IsErrOf result (StoreFault.Device number) → StoreFailed S.shown number (length sorted.now) body.old body.new (P.stock supply.old) (P.stock supply.new) }
    ensures writes { WritesFew S.shown (length sorted.now) body.old body.new (P.stock supply.old) (P.stock supply.new) }
    ensures counted { StorePays S.shown result (length sorted.now) body.old body.new (P.stock supply.old) (P.stock supply.new) }
    ensures lanes { LanesRest body.old.lanes body.new.lanes }
    ensures size { HasOneSize S.shown R.WIDTH body.new (P.stock supply.new) }
    ensures rooms { RoomsRest body.old body.new }
{
    let block = body.lanes.idle.at(0).block();
    match store_in_buffers(supply, sorted, block) {
        Some(run) => {
            body.runs.internal.push_reserved(run);
            Ok(())
        }
        None => store_in_blocks(rt, body, supply, sorted, block),
    }
}

/// Merges all runs in buffers into one run in blocks, as `store_sorted` does where buffers are short, with
/// no list beside them.
///
/// `Ok`, `NoFreeBlock` and `Device` come as from there, and leave the same.
pub fn store_buffers<H: Host, S: Slot + Send, R: Record + Send, P: Supply<S, R>>(
    rt: &H,
    body: &mut PassBody<S, R>,
    supply: &mut P,
) -> Result<(), StoreFault>
where
    H::Dir: Send,
    requires some { 0 < in_buffers body.old }
    requires room { MayStore S.shown R.WIDTH 0 body.old (P.stock supply.old) }
    requires ascend { RunsAscend R.Ord.cmp S.shown [] body.old (P.stock supply.old) }
    ensures kept { Kept (P.stock supply.old) (P.stock supply.new) (held_by S.shown body.old) (held_by S.shown body.new) }
    ensures takes_back { CanTakeBack S.shown (P.stock supply.new) body.new.runs.internal.items body.new.runs.external.items }
    ensures tells { StillTell S.shown body.old body.new (P.stock supply.old) (P.stock supply.new) }
    ensures untold { StillUntold S.shown body.old body.new (P.stock supply.old) (P.stock supply.new) }
    ensures home { P.home supply.new ≡ P.home supply.old }
    ensures stored { OnOk result (BlocksStored R.Ord.cmp R.record_of R.WIDTH S.shown [] body.old body.new (P.stock supply.old) (P.stock supply.new)) }
    ensures none_free { IsErrOf result StoreFault.NoFreeBlock → NoSlots 0 body.old body.new (P.stock supply.old) (P.stock supply.new) }
    ensures device { (number : ℕ) → IsErrOf result (StoreFault.Device number) → RunStopped S.shown number body.old body.new (P.stock supply.old) (P.stock supply.new) }
    ensures writes { WritesFew S.shown 0 body.old body.new (P.stock supply.old) (P.stock supply.new) }
    ensures counted { StorePays S.shown result 0 body.old body.new (P.stock supply.old) (P.stock supply.new) }
    ensures lanes { LanesRest body.old.lanes body.new.lanes }
    ensures size { HasOneSize S.shown R.WIDTH body.new (P.stock supply.new) }
    ensures rooms { RoomsRest body.old body.new }
{
    let block = body.lanes.idle.at(0).block();
    store_in_blocks(rt, body, supply, &[], block)
}

// Stores a list and all runs in buffers as one run in blocks.
fn store_in_blocks<H: Host, S: Slot + Send, R: Record + Send, P: Supply<S, R>>(
    rt: &H,
    body: &mut PassBody<S, R>,
    supply: &mut P,
    sorted: &[R],
    block: u32,
) -> Result<(), StoreFault>
where
    H::Dir: Send,
    requires some { 0 < length sorted.now + in_buffers body.old }
    requires block { block ≡ (P.stock supply.old).block }
    requires room { MayStore S.shown R.WIDTH (length sorted.now) body.old (P.stock supply.old) }
    requires ascend { RunsAscend R.Ord.cmp S.shown sorted.now body.old (P.stock supply.old) }
    ensures leaves { StoreLeaves S.shown R.WIDTH (length sorted.now) body.old body.new (P.stock supply.old) (P.stock supply.new) }
    ensures outcome { StoreEnds R.Ord.cmp R.record_of R.WIDTH S.shown sorted.now body.old body.new (P.stock supply.old) (P.stock supply.new) result }
    ensures home { P.home supply.new ≡ P.home supply.old }
    ensures scant { SameScant (P.stock supply.old) (P.stock supply.new) }
{
    let total = sorted.len() as u32 + count_records(&body.runs.internal);
    let Some(berths) = draw_slots(supply, blocks_for(total, block)) else {
        return Err(StoreFault::NoFreeBlock);
    };
    let made = ExternalArray::empty(0);
    let mut making = NewArray { made, berths };
    let failed = write_run(rt, body, sorted, &mut making);
    let NewArray { made, berths } = making;
    body.runs.external.push_reserved(made);
    match failed {
        None => {
            release_runs(supply, &mut body.runs.internal);
            Ok(())
        }
        Some(berth) => {
            let number = berth.number();
            free_slot(supply, berth);
            free_slots(supply, berths);
            Err(StoreFault::Device { number })
        }
    }
}

// How many records runs have.
fn count_records<R: Record>(internal: &[InternalArray<R>]) -> u32
    requires { length (internal_items internal.now) < 2 ^ 32 }
    ensures { result ≡ length (internal_items internal.now) }
{
    let mut count = 0;
    for run in internal {
        count += run.len();
    }
    count as u32
}
