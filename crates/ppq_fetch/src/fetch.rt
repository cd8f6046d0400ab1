//! Taking the smallest records of runs.
ghost use Rattle.std.specs.Prelude.{◌≡◌, ◌+◌, ◌<◌, ◌≤◌, ℕ, min, length, take, None, IfOk, OnOk, IsErrOf};
ghost use Rattle.ppq_array.specs.ppq_record.Bag.{front};
ghost use Rattle.ppq_fetch.specs.Taking.{wanted};
ghost use Rattle.ppq_fetch.specs.Fetching.{state, source_items, AreSources, MayFetch, Fetched, FetchFailed, SourcesTell, RunsRise, count_in};

use crate::bench::Bench;
use crate::crew::Crew;
use crate::hint::{announce_all, tell_all};
use crate::load::load_block;
use crate::plan::plan_turn;
use crate::prefetch::{ahead_of_merge, take_turn};
use crate::turn::Turn;
use ppq_array::{
    BufList, ExternalArray, Gate, Host, InternalArray, Record, Slot, StoreFault, Supply,
    record_laws,
};

/// Takes the smallest records of all runs, as many as `out` has room for, or all there are; with a limit
/// only those below it. They stand at the beginning of `out` in ascending order, and it gives how many.
///
/// A loaded record is safe where it is not after the first record of any block that is not loaded. While
/// fewer safe records are at hand than are wanted, the block with the smallest first record is loaded into
/// an idle buffer, where its run has nothing loaded, or where fewer than `ahead` blocks are loaded beyond
/// one a run. Then the workers of the bench merge all that is safe at once.
///
/// The device is told of the first two blocks of each run that are not loaded, at the beginning and where a block
/// of the run is loaded. If it does not read them by itself, then with four workers or more the
/// next blocks of two runs are read beside a merge of 4,096 records or more, on a thread of their own, if no
/// more than `ahead` are loaded ahead with them; so that there is room for them, two fewer are loaded before
/// it. The slot of a block that was read goes to the supply, and so do the spent buffers of runs in buffers;
/// those of runs in blocks are idle again.
///
/// `places` has a place for each run; what stands in it has no meaning before and after.
///
/// Each loaded block is read once, and no block is written. It does not allocate. A merge costs what
/// `merge_workers` says; a turn besides a binary search in the loaded records of each run. Which block is next the
/// hints of the bench say, which are made at the beginning.
///
/// `Device` only if the read of the slot with that number failed; the supply keeps that slot. A read that
/// fails beside a merge is answered too, also if no record of the block was wanted. Nothing else is
/// answered. The records of that block and those that were taken before are lost then, but no
/// slot and no buffer. Over slots that give back other bytes it returns too, with some of the records.
pub fn take_least<
    H: Host,
    S: Slot + Send + Sync,
    R: Record + Send + Sync,
    P: Supply<S, R>,
    G: Gate,
>(
    rt: &H,
    internal: &mut [InternalArray<R>],
    external: &mut [ExternalArray<S, R>],
    idle: &mut BufList<R>,
    places: &mut [u64],
    bench: &mut Bench<R>,
    supply: &mut P,
    below: Option<R>,
    ahead: u32,
    out: &mut [R],
    gate: &G,
) -> Result<usize, StoreFault>
where
    H::Dir: Send,
    requires may { MayFetch S.shown R.WIDTH ahead (state internal.old external.old idle.old (P.stock supply.old)) }
    requires places { length places.old ≡ length internal.old + length external.old }
    requires bench { length places.old ≤ length bench.old.places }
    ensures count { IfOk result (λ n. n ≤ length out.new) }
    ensures fetched { IfOk result (λ n. Fetched R.Ord.cmp R.record_of R.WIDTH S.shown below (state internal.old external.old idle.old (P.stock supply.old)) (state internal.new external.new idle.new (P.stock supply.new)) (take n out.new)) }
    ensures front { IfOk result (λ n. SourcesTell S.shown (state internal.old external.old idle.old (P.stock supply.old)) → RunsRise R.record_of R.WIDTH S.shown R.Ord.cmp (state internal.old external.old idle.old (P.stock supply.old)) → take n out.new ≡ front R.Ord.cmp (source_items R.record_of R.WIDTH S.shown (state internal.old external.old idle.old (P.stock supply.old))) (wanted R.Ord.cmp (length out.old) below (source_items R.record_of R.WIDTH S.shown (state internal.old external.old idle.old (P.stock supply.old))))) }
    ensures all { IfOk result (λ n. below ≡ None → n ≡ min (length out.old) (count_in internal.old external.old)) }
    ensures may { OnOk result (MayFetch S.shown R.WIDTH ahead (state internal.new external.new idle.new (P.stock supply.new))) }
    ensures sources { AreSources S.shown R.WIDTH ahead (state internal.new external.new idle.new (P.stock supply.new)) }
    ensures device_alone { IsErrOf result StoreFault.NoFreeBlock → ⊥ }
    ensures device { (number : ℕ) → IsErrOf result (StoreFault.Device number) → FetchFailed S.shown number (state internal.old external.old idle.old (P.stock supply.old)) (state internal.new external.new idle.new (P.stock supply.new)) }
    ensures home { P.home supply.new ≡ P.home supply.old }
    ensures out { length out.new ≡ length out.old }
    ensures places { length places.new ≡ length places.old }
    ensures bench { length bench.new.places ≡ length bench.old.places }
    ensures workers { bench.new.workers ≡ bench.old.workers }
{
    record_laws::<R>();
    straighten(internal);
    let by_itself = announce_all(rt, external);
    tell_all(&*external, bench, by_itself);
    let crew = Crew { rt, gate };
    let most = ahead_of_merge(bench, ahead);
    let mut to = 0;
    while to < out.len() {
        let room = (out.len() - to) as u64;
        let turn = plan_turn(&*internal, &*external, places, &*bench, below, room, most);
        match turn {
            Turn::End => return Ok(to),
            Turn::Load(place) => match load_block(rt, &mut external[place], idle, supply) {
                None => bench.hint(place as u32, external[place].next_to_lift()),
                Some(number) => return Err(StoreFault::Device { number }),
            },
            Turn::Take(count) => {
                let end = to + count as usize;
                let part = &mut out[to..end];
                match take_turn(
                    internal, external, idle, places, bench, supply, &below, ahead, part, &crew,
                ) {
                    None => to = end,
                    Some(lost) => return Err(StoreFault::Device { number: lost }),
                }
            }
        }
    }
    Ok(to)
}

// Makes ready to read each run from its first buffer on.
fn straighten<R: Record>(internal: &mut [InternalArray<R>])
    ensures { internal.new ≡ internal.old }
{
    for i in 0..internal.len() {
        internal[i].straighten();
    }
}
