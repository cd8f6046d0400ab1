//! Taking the smallest records of the runs of one owner.
ghost use Rattle.std.specs.Prelude.{◌≡◌, ◌+◌, ◌≤◌, ℕ, min, length, take, vec_capacity, None, IfOk, OnOk, IsErrOf};
ghost use Rattle.ppq_fetch.specs.ppq_record.Bag.{front};
ghost use Rattle.ppq_fetch.specs.Taking.{wanted};
ghost use Rattle.ppq_fetch.specs.Steps.{SameRoom};
ghost use Rattle.ppq_fetch.specs.Fetching.{source_items, AreSources, MayFetch, Fetched, FetchFailed, SourcesTell, RunsRise, count_in};
ghost use Rattle.ppq_extract.specs.Extracted.{sources_of};

use ppq_fetch::{Bench, BufList, Gate, Host, Record, Runs, Slot, StoreFault, Supply, take_least};

// How records are taken: in which runtime, through which gate, and below which limit.
#[derive(Drop)]
pub(crate) struct Taking<'a, H, G, R: Record> {
    pub(crate) rt: &'a H,
    pub(crate) gate: &'a G,
    pub(crate) below: Option<R>,
}

// `take_least` of all runs of one owner into `records`, with as many of the places as there are runs. As
// many blocks are loaded ahead as there are workers.
pub(crate) fn take_from_runs<
    H: Host,
    S: Slot + Send + Sync,
    R: Record + Send + Sync,
    P: Supply<S, R>,
    G: Gate,
>(
    taking: &Taking<H, G, R>,
    runs: &mut Runs<S, R>,
    idle: &mut BufList<R>,
    places: &mut [u64],
    bench: &mut Bench<R>,
    supply: &mut P,
    records: &mut [R],
) -> Result<usize, StoreFault>
where
    H::Dir: Send,
    requires may { MayFetch S.shown R.WIDTH bench.old.workers (sources_of runs.old idle.old (P.stock supply.old)) }
    requires places { length runs.old.internal.items + length runs.old.external.items ≤ length places.old }
    requires bench { length runs.old.internal.items + length runs.old.external.items ≤ length bench.old.places }
    ensures count { IfOk result (λ n. n ≤ length records.new) }
    ensures fetched { IfOk result (λ n. Fetched R.Ord.cmp R.record_of R.WIDTH S.shown taking.now.below (sources_of runs.old idle.old (P.stock supply.old)) (sources_of runs.new idle.new (P.stock supply.new)) (take n records.new)) }
    ensures front { IfOk result (λ n. SourcesTell S.shown (sources_of runs.old idle.old (P.stock supply.old)) → RunsRise R.record_of R.WIDTH S.shown R.Ord.cmp (sources_of runs.old idle.old (P.stock supply.old)) → take n records.new ≡ front R.Ord.cmp (source_items R.record_of R.WIDTH S.shown (sources_of runs.old idle.old (P.stock supply.old))) (wanted R.Ord.cmp (length records.old) taking.now.below (source_items R.record_of R.WIDTH S.shown (sources_of runs.old idle.old (P.stock supply.old))))) }
    ensures all { IfOk result (λ n. taking.now.below ≡ None → n ≡ min (length records.old) (count_in runs.old.internal.items runs.old.external.items)) }
    ensures may { OnOk result (MayFetch S.shown R.WIDTH bench.old.workers (sources_of runs.new idle.new (P.stock supply.new))) }
    ensures sources { AreSources S.shown R.WIDTH bench.old.workers (sources_of runs.new idle.new (P.stock supply.new)) }
    ensures device_alone { IsErrOf result StoreFault.NoFreeBlock → ⊥ }
    ensures device { (number : ℕ) → IsErrOf result (StoreFault.Device number) → FetchFailed S.shown number (sources_of runs.old idle.old (P.stock supply.old)) (sources_of runs.new idle.new (P.stock supply.new)) }
    ensures home { P.home supply.new ≡ P.home supply.old }
    ensures room { SameRoom records.old records.new places.old places.new bench.old bench.new }
    ensures internal_room { vec_capacity runs.new.internal ≡ vec_capacity runs.old.internal }
    ensures external_room { vec_capacity runs.new.external ≡ vec_capacity runs.old.external }
{
    let count = runs.internal.len() + runs.external.len();
    let ahead = bench.workers();
    take_least(
        taking.rt,
        &mut runs.internal,
        &mut runs.external,
        idle,
        &mut places[..count],
        bench,
        supply,
        taking.below,
        ahead,
        records,
        taking.gate,
    )
}
