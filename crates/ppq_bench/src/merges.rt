//! Merges of a load: checked against a sort, and timed.
use crate::load::{Load, out_of_memory, room};
use ppq_device::OpenGate;
use ppq_merge::{Bench, merge_workers, size_of};
use ppq_tree::{Listing, Lists, Pair, sort};
use std::alloc::Global;
use std::io;
use std::io::ErrorKind;
use std::rt::Clock;
use std::thread::Threads;
use std::time::Instant;

// How many records are merged in all to time one merge, again and again; the smallest time counts.
const MERGED: u64 = 67108864;

// A bench for the runs of a load.
fn bench_for(alloc: Global, load: &Load, workers: u32) -> io::Result<Bench<Pair>> {
    Bench::new(alloc, workers.max(1), load.lists.len() as u32).map_err(|_| out_of_memory())
}

// Merges all records of a load into `out`. Returns false, with nothing merged, if `out` has no room for
// just so many records, or the bench was made for fewer runs.
fn merge_all<H: Threads + Sync>(
    rt: &H,
    load: &Load,
    bench: &mut Bench<Pair>,
    out: &mut [Pair],
) -> bool {
    let runs = Lists::new(&load.lists);
    let count = out.len() as u64;
    if bench.runs() < runs.runs() || size_of(&runs) != Some(count) {
        return false;
    }
    merge_workers(rt, bench, &runs, count, out, &OpenGate);
    true
}

// Merges all records of a load into `out` by so many workers, as `merge_all` does.
fn merge_by<H: Threads + Sync>(
    rt: &H,
    alloc: Global,
    load: &Load,
    workers: u32,
    out: &mut [Pair],
) -> io::Result<bool> {
    let mut bench = bench_for(alloc, load, workers)?;
    Ok(merge_all(rt, load, &mut bench, out))
}

// All records of a load, sorted.
fn sorted(alloc: Global, load: &Load) -> io::Result<Vec<Pair>> {
    let mut all = Vec::with_capacity(alloc, load.size as usize)?;
    for list in &load.lists {
        all.extend_from_slice(list.as_slice())?;
    }
    sort(all.as_mut_slice());
    Ok(all)
}

// Whether the merge of a load by so many workers is what a sort of all its records gives.
pub(crate) fn as_sorted<H: Threads + Sync>(
    rt: &H,
    alloc: Global,
    load: &Load,
    workers: u32,
) -> io::Result<bool> {
    let all = sorted(alloc, load)?;
    let mut out = room(alloc, load.size)?;
    let is_whole = merge_by(rt, alloc, load, workers, out.as_mut_slice())?;
    Ok(is_whole & (out.as_slice() == all.as_slice()))
}

// The smallest time that a merge of a load takes with a bench, in picoseconds a record. `InvalidInput` if the
// load cannot be merged so.
fn least_time<H: Threads + Sync + Clock>(
    rt: &H,
    load: &Load,
    bench: &mut Bench<Pair>,
    out: &mut [Pair],
) -> io::Result<u64> {
    let mut best = u64::MAX;
    for _turn in 0..MERGED / load.size.max(1) {
        let start = Instant::now(rt)?;
        if !merge_all(rt, load, bench, out) {
            return Err(io::Error::from(ErrorKind::InvalidInput));
        }
        let took = start.elapsed(rt)?.as_nanos().min(u128::from(u64::MAX)) as u64;
        best = best.min(took);
    }
    Ok(best.saturating_mul(1000) / load.size.max(1))
}

// The smallest time that merging a load by so many workers took, in picoseconds a record.
pub(crate) fn picoseconds<H: Threads + Sync + Clock>(
    rt: &H,
    alloc: Global,
    load: &Load,
    workers: u32,
) -> io::Result<u64> {
    let mut out = room(alloc, load.size)?;
    let mut bench = bench_for(alloc, load, workers)?;
    least_time(rt, load, &mut bench, out.as_mut_slice())
}
