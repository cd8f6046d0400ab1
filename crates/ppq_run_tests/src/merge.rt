//! Merges of pairs by workers.
ghost use Rattle.std.specs.Prelude.{◌<◌};

use ppq_merge::{Bench, merge_workers, size_of};
use ppq_outside::{Gate, OpenGate};
use ppq_record::{Listing, Lists, Pair, sort};
use ppq_testkit::{CrowdGate, PairGate, SoloGate, draw, pair};
use std::alloc::Global;
use std::process::Abort;
use std::sync::atomic::{AtomicU64, Ordering};
use std::thread::Threads;

// Runs of pairs with these keys.
fn runs(rt: &impl Abort, alloc: Global, all: &[&[u64]]) -> Vec<Vec<Pair>> {
    let mut lists = Vec::new(alloc);
    for keys in all {
        lists.push(run(rt, alloc, keys)).expect(rt, "memory");
    }
    lists
}

// A run of pairs with these keys.
fn run(rt: &impl Abort, alloc: Global, keys: &[u64]) -> Vec<Pair> {
    let mut items = Vec::new(alloc);
    for key in keys {
        items.push(pair(*key)).expect(rt, "memory");
    }
    items
}

// What a merge left: the records, and the place in each run.
#[derive(Drop)]
struct Merged {
    out: Vec<Pair>,
    cuts: Vec<u64>,
}

// Merges the smallest `count` records of runs that are shown with a bench.
fn merge_shown<H: Threads + Sync + Abort, Q: Listing<Pair>, G: Gate>(
    rt: &H,
    alloc: Global,
    bench: &mut Bench<Pair>,
    runs: &Q,
    count: u64,
    gate: &G,
) -> Vec<Pair> {
    let nine = Pair { key: 9, value: 9 };
    let mut out = vec![in alloc; nine; count as usize].expect(rt, "memory");
    let count = out.len() as u64;
    let size = size_of(runs).expect(rt, "a size");
    assert!(rt; count <= size && runs.runs() <= bench.runs());
    merge_workers(rt, bench, runs, count, out.as_mut_slice(), gate);
    out
}

// Merges the smallest `count` records of some runs with a bench.
fn merge_with<H: Threads + Sync + Abort, G: Gate>(
    rt: &H,
    alloc: Global,
    bench: &mut Bench<Pair>,
    lists: &[Vec<Pair>],
    count: u64,
    gate: &G,
) -> Vec<Pair> {
    assert!(rt; lists.len() < 4294967296);
    let runs = Lists::new(lists);
    merge_shown(rt, alloc, bench, &runs, count, gate)
}

// Merges the smallest `count` records of some runs by so many workers.
fn merge_by<H: Threads + Sync + Abort, G: Gate>(
    rt: &H,
    alloc: Global,
    lists: &[Vec<Pair>],
    workers: u32,
    count: u64,
    gate: &G,
) -> Merged {
    let made = Bench::new(alloc, workers.max(1), lists.len().min(4294967295) as u32);
    let mut bench = made.expect(rt, "memory");
    let out = merge_with(rt, alloc, &mut bench, lists, count, gate);
    let mut cuts = Vec::new(alloc);
    for run in 0..bench.runs() {
        cuts.push(bench.cut(run)).expect(rt, "memory");
    }
    Merged { out, cuts }
}

// Whether a merge of some runs by so many workers gives these records and has these places.
fn merges<H: Threads + Sync + Abort>(
    rt: &H,
    alloc: Global,
    lists: &[Vec<Pair>],
    workers: u32,
    want: &[Pair],
    cuts: &[u64],
) -> bool {
    let made = merge_by(rt, alloc, lists, workers, want.len() as u64, &OpenGate);
    (made.out.as_slice() == want) & (made.cuts.as_slice() == cuts)
}

// Whether so many workers merge no record of two runs, the first five and all six.
fn merges_fronts<H: Threads + Sync + Abort>(
    rt: &H,
    alloc: Global,
    lists: &[Vec<Pair>],
    workers: u32,
) -> bool {
    let five = run(rt, alloc, &[1, 2, 3, 3, 4]);
    let six = run(rt, alloc, &[1, 2, 3, 3, 4, 5]);
    let fronts = merges(rt, alloc, lists, workers, &[], &[0, 0])
        & merges(rt, alloc, lists, workers, &five, &[2, 3]);
    fronts & merges(rt, alloc, lists, workers, &six, &[3, 3])
}

#[test]
fn any_number_of_workers_merges_the_smallest_of_two_runs(rt: HostRuntime) {
    let alloc = rt.alloc();
    let lists = runs(&rt, alloc, &[&[1, 3, 5], &[2, 3, 4]]);
    for workers in [1, 2, 3, 64] {
        assert!(rt; merges_fronts(&rt, alloc, &lists, workers));
    }
}

// A merge by workers of whom the first two wait for each other, and whether they met and all entered.
fn merge_met<H: Threads + Sync + Abort>(
    rt: &H,
    alloc: Global,
    lists: &[Vec<Pair>],
    workers: u32,
    count: u64,
) -> (Merged, bool) {
    let gate = PairGate::new();
    let made = merge_by(rt, alloc, lists, workers, count, &gate);
    let met = gate.is_passed() & (gate.entered() == u64::from(workers));
    (made, met)
}

// Whether two workers meet while they merge five records of two runs.
fn two_meet<H: Threads + Sync + Abort>(rt: &H, alloc: Global, lists: &[Vec<Pair>]) -> bool {
    let (five, met) = merge_met(rt, alloc, lists, 2, 5);
    met & (five.cuts.as_slice() == [2, 3].as_slice())
}

// Whether so many workers meet while they merge half of the records.
fn all_meet<H: Threads + Sync + Abort>(
    rt: &H,
    alloc: Global,
    lists: &[Vec<Pair>],
    workers: u32,
) -> bool {
    let (half, met) = merge_met(rt, alloc, lists, workers, 24000);
    met & is_front(rt, alloc, lists, &half)
}

#[test]
fn two_workers_are_on_their_way_at_once(rt: HostRuntime) {
    let alloc = rt.alloc();
    let few = runs(&rt, alloc, &[&[1, 3, 5], &[2, 3, 4]]);
    assert!(rt; two_meet(&rt, alloc, &few));
    let many = generated(&rt, alloc, &mut 7, 4, 12000);
    for workers in [2, 3, 5] {
        assert!(rt; all_meet(&rt, alloc, &many, workers));
    }
}

// A gate that counts how often each of workers 0 to 7 enters it, in a byte each.
#[derive(Drop)]
struct RollGate {
    entered: AtomicU64,
}

impl Gate for RollGate {
    fn enter(&self, worker: u32) {
        if worker < 8 {
            self.entered.fetch_add(1 << (8 * worker), Ordering::SeqCst);
        }
    }
}

// Whether each of five workers enters a gate once while so many records are merged, and an open gate gives the same.
fn enter_once<H: Threads + Sync + Abort>(
    rt: &H,
    alloc: Global,
    lists: &[Vec<Pair>],
    count: u64,
) -> bool {
    let gate = RollGate {
        entered: AtomicU64::new(0),
    };
    let counted = merge_by(rt, alloc, lists, 5, count, &gate);
    let open = merge_by(rt, alloc, lists, 5, count, &OpenGate);
    let once = gate.entered.load(Ordering::SeqCst) == 0x1_0101_0101;
    let same = counted.out.as_slice() == open.out.as_slice();
    once & same & (counted.cuts.as_slice() == open.cuts.as_slice())
}

#[test]
fn each_worker_enters_once_also_without_a_piece(rt: HostRuntime) {
    let alloc = rt.alloc();
    let lists = generated(&rt, alloc, &mut 9, 4, 12000);
    // of four runs a piece has 6,176 records or more: one worker has a piece, three have, and all five
    for count in [0, 6000, 24000, 48000] {
        assert!(rt; enter_once(&rt, alloc, &lists, count), "{count}");
    }
}

#[test]
fn all_workers_are_on_their_way_at_once_also_without_a_piece(rt: HostRuntime) {
    let alloc = rt.alloc();
    let lists = generated(&rt, alloc, &mut 9, 4, 12000);
    for count in [6000, 24000] {
        let gate = CrowdGate::new(5);
        let made = merge_by(&rt, alloc, &lists, 5, count, &gate);
        assert!(rt;
            gate.is_passed() & is_front(&rt, alloc, &lists, &made),
            "{count}"
        );
    }
}

// Runs that tell a gate of each record that is read of them.
#[derive(Drop)]
struct Watched<'a> {
    runs: &'a Lists<'a, Pair>,
    gate: &'a SoloGate,
}

impl<'a> Listing<Pair> for Watched<'a> {
    ghost lists = { λ s. ⟦<Lists<'a, Pair> as Listing<Pair>>⟧.lists s.runs.now };

    fn runs(&self) -> u32 {
        self.runs.runs()
    }

    fn len(&self, run: u32) -> u64 {
        self.runs.len(run)
    }

    fn at(&self, run: u32, i: u64) -> Pair {
        self.gate.note();
        self.runs.at(run, i)
    }
}

// Merges 48,000 records by so many workers, of which all but one are held until it has read its share.
fn merge_held<H: Threads + Sync + Abort>(
    rt: &H,
    alloc: Global,
    lists: &[Vec<Pair>],
    workers: u32,
    gate: &SoloGate,
) {
    assert!(rt; lists.len() < 4294967296);
    let lists = Lists::new(lists);
    let runs = Watched { runs: &lists, gate };
    let made = Bench::new(alloc, workers.max(1), 4);
    let mut bench = made.expect(rt, "memory");
    merge_shown(rt, alloc, &mut bench, &runs, 48000, gate);
}

// Whether a worker merges its share while the others wait, and each of 48,000 records is read once.
fn merges_its_share<H: Threads + Sync + Abort>(
    rt: &H,
    alloc: Global,
    lists: &[Vec<Pair>],
    workers: u32,
    worker: u32,
) -> bool
    requires { 0 < workers }
{
    let gate = SoloGate::new(worker, 48000 / u64::from(workers));
    merge_held(rt, alloc, lists, workers, &gate);
    gate.is_passed() & (gate.read() == 48000)
}

#[test]
fn each_worker_merges_its_share_and_each_record_is_read_once(rt: HostRuntime) {
    let alloc = rt.alloc();
    let lists = generated(&rt, alloc, &mut 5, 4, 12000);
    for workers in [2, 3, 5] {
        for worker in 0..workers {
            assert!(rt;
                merges_its_share(&rt, alloc, &lists, workers, worker),
                "{worker} of {workers}"
            );
        }
    }
}

// Sorted runs of generated pairs, of which many have the same key, and some are equal.
fn generated(
    rt: &impl Abort,
    alloc: Global,
    seed: &mut u64,
    runs: u64,
    size: u64,
) -> Vec<Vec<Pair>> {
    let mut lists = Vec::new(alloc);
    for _run in 0..runs {
        let list = generated_run(rt, alloc, seed, size);
        lists.push(list).expect(rt, "memory");
    }
    lists
}

// A sorted run of generated pairs.
fn generated_run(rt: &impl Abort, alloc: Global, seed: &mut u64, size: u64) -> Vec<Pair> {
    let mut items = Vec::new(alloc);
    for _item in 0..size {
        let key = draw(seed, 40);
        let value = draw(seed, 3);
        items.push(Pair { key, value }).expect(rt, "memory");
    }
    sort(items.as_mut_slice());
    items
}

// The records of all runs in front of places, sorted; a run without a place counts whole.
fn taken(rt: &impl Abort, alloc: Global, lists: &[Vec<Pair>], cuts: &[u64]) -> Vec<Pair> {
    let mut all = Vec::new(alloc);
    for (run, list) in lists.iter().enumerate() {
        let cut = cuts.get(run).map_or(u64::MAX, |place| *place);
        for (place, item) in list.iter().enumerate() {
            if (place as u64) < cut {
                all.push(*item).expect(rt, "memory");
            }
        }
    }
    sort(all.as_mut_slice());
    all
}

// Whether what was merged is the front of a sort of all records, and the records in front of the places.
fn is_front(rt: &impl Abort, alloc: Global, lists: &[Vec<Pair>], merged: &Merged) -> bool {
    let front = taken(rt, alloc, lists, merged.cuts.as_slice());
    let all = taken(rt, alloc, lists, &[]);
    let out = merged.out.as_slice();
    (out == front.as_slice()) & (all.get(..out.len()) == Some(front.as_slice()))
}

// One merge of generated runs by one to six workers.
fn one_case<H: Threads + Sync + Abort>(rt: &H, alloc: Global, seed: &mut u64, size: u64) {
    let runs = draw(seed, 9);
    let size = draw(seed, size);
    let lists = generated(rt, alloc, seed, runs, size);
    let all = runs.saturating_mul(size);
    let count = draw(seed, all.saturating_add(1));
    let workers = draw(seed, 6) as u32;
    let made = merge_by(rt, alloc, &lists, workers + 1, count, &OpenGate);
    assert!(rt; is_front(rt, alloc, &lists, &made));
}

#[test]
fn generated_runs_are_merged_as_a_sort_would(rt: HostRuntime) {
    let mut seed = 1;
    for case in 0..2000 {
        let size = if case < 1980 { 20 } else { 12000 };
        one_case(&rt, rt.alloc(), &mut seed, size);
    }
}

// Whether a merge of so many records gives those in front of the places.
fn gives_what_it_took<H: Threads + Sync + Abort>(
    rt: &H,
    alloc: Global,
    lists: &[Vec<Pair>],
    workers: u32,
    count: u64,
) -> bool {
    let mut made = merge_by(rt, alloc, lists, workers, count, &OpenGate);
    sort(made.out.as_mut_slice());
    let same = taken(rt, alloc, lists, made.cuts.as_slice());
    (made.out.as_slice() == same.as_slice()) & (made.out.len() as u64 == count)
}

// Generated runs, each with its records from the greatest to the smallest.
fn falling(rt: &impl Abort, alloc: Global) -> Vec<Vec<Pair>> {
    let mut many = generated(rt, alloc, &mut 3, 4, 12000);
    for list in &mut many {
        list.as_mut_slice().reverse();
    }
    many
}

#[test]
fn runs_that_do_not_ascend_give_some_of_their_records(rt: HostRuntime) {
    let alloc = rt.alloc();
    let lists = runs(&rt, alloc, &[&[9, 1, 8], &[3, 6, 0]]);
    for workers in [1, 2, 3] {
        assert!(rt; gives_what_it_took(&rt, alloc, &lists, workers, 4));
    }
    let many = falling(&rt, alloc);
    for workers in [2, 4] {
        assert!(rt; gives_what_it_took(&rt, alloc, &many, workers, 30000));
    }
}

// Whether a merge of some runs with a bench gives these records.
fn merges_with<H: Threads + Sync + Abort>(
    rt: &H,
    alloc: Global,
    bench: &mut Bench<Pair>,
    lists: &[Vec<Pair>],
    want: &[Pair],
) -> bool {
    let made = merge_with(rt, alloc, bench, lists, want.len() as u64, &OpenGate);
    made.as_slice() == want
}

// Whether a bench for three runs has these places.
fn has_cuts(bench: &Bench<Pair>, first: u64, second: u64, third: u64) -> bool {
    if bench.runs() != 3 {
        return false;
    }
    (bench.cut(0) == first) & (bench.cut(1) == second) & (bench.cut(2) == third)
}

// Whether a bench of two workers merges two runs and then one.
fn is_used_again<H: Threads + Sync + Abort>(rt: &H, alloc: Global) -> bool {
    let lists = runs(rt, alloc, &[&[1, 3, 5], &[2, 3, 4]]);
    let one = runs(rt, alloc, &[&[4, 6]]);
    let mut bench = Bench::new(alloc, 2, 3).expect(rt, "memory");
    let workers = bench.workers() == 2;
    let three = merges_with(rt, alloc, &mut bench, &lists, &[pair(1), pair(2), pair(3)]);
    let first = three & has_cuts(&bench, 2, 1, 0);
    let four = merges_with(rt, alloc, &mut bench, &one, &[pair(4)]);
    workers & first & four & has_cuts(&bench, 1, 0, 0)
}

#[test]
fn a_bench_is_used_again_by_fewer_runs(rt: HostRuntime) {
    assert!(rt; is_used_again(&rt, rt.alloc()));
}
