//! Cuts of pairs.
use crate::pairs::pair;
use ppq_record::{Listing, Lists, Pair};
use ppq_split::{cut_at, one_cut, size_of};
use std::alloc::Global;
use std::process::Abort;

// Runs of pairs with these keys.
fn runs(rt: &impl Abort, alloc: Global, all: &[&[u64]]) -> Vec<Vec<Pair>> {
    let mut lists = Vec::new(alloc);
    for keys in all {
        lists.push(run(rt, alloc, keys)).expect(rt, "memory");
    }
    lists
}

// A run of pairs with these keys.
fn run(rt: &impl Abort, alloc: Global, keys: &[u64]) -> Vec<Pair> {
    let mut items = Vec::new(alloc);
    for key in keys {
        items.push(pair(*key)).expect(rt, "memory");
    }
    items
}

// The places at a rank of runs that have so many records.
fn cut(rt: &impl Abort, alloc: Global, lists: &[Vec<Pair>], rank: u64) -> Vec<u64> {
    let mut cuts = vec![in alloc; 0; lists.len()].expect(rt, "memory");
    assert!(rt; lists.len() < 4294967296 && cuts.len() == lists.len());
    let runs = Lists::new(lists);
    let size = size_of(&runs).expect(rt, "a size");
    assert!(rt; rank <= size);
    cut_at(&runs, rank, cuts.as_mut_slice());
    cuts
}

// The run whose next record is the smallest, the lowest of several.
fn next_run(lists: &[Vec<Pair>], places: &[u64]) -> Option<usize> {
    let mut best: Option<(usize, u64)> = None;
    for run in 0..lists.len().min(places.len()) {
        let Some(item) = lists[run].as_slice().get(places[run] as usize) else {
            continue;
        };
        let least = best.map_or(u64::MAX, |found| found.1);
        if best.is_none() || item.key < least {
            best = Some((run, item.key));
        }
    }
    best.map(|found| found.0)
}

// Whether runs are cut at a rank in these places.
fn is_cut_at(
    rt: &impl Abort,
    alloc: Global,
    lists: &[Vec<Pair>],
    rank: u64,
    places: &[u64],
) -> bool {
    cut(rt, alloc, lists, rank).as_slice() == places
}

// Compares the cut at each rank with the places after so many records were taken one by one, each
// time the smallest of the lowest run.
fn cuts_as_taken_one_by_one(rt: &impl Abort, alloc: Global, lists: &[Vec<Pair>], size: u64) {
    let mut places = vec![in alloc; 0; lists.len()].expect(rt, "memory");
    for rank in 0..size {
        assert!(rt;
            is_cut_at(rt, alloc, lists, rank, places.as_slice()),
            "at {rank}"
        );
        let run = next_run(lists, places.as_slice()).expect(rt, "a record");
        assert!(rt; run < places.len());
        places[run] = places[run].saturating_add(1);
    }
    assert!(rt;
        is_cut_at(rt, alloc, lists, size, places.as_slice()),
        "at {size}"
    );
    assert!(rt; next_run(lists, places.as_slice()).is_none());
}

#[test]
fn two_runs_are_cut_with_ties_to_the_lower(rt: HostRuntime) {
    one_cut::<Pair>();
    let lists = runs(&rt, rt.alloc(), &[&[1, 3, 5], &[2, 3, 4]]);
    for (rank, places) in [
        (0, [0, 0]),
        (1, [1, 0]),
        (2, [1, 1]),
        (3, [2, 1]),
        (4, [2, 2]),
        (5, [2, 3]),
        (6, [3, 3]),
    ] {
        assert!(rt; is_cut_at(&rt, rt.alloc(), &lists, rank, &places));
    }
}

#[test]
fn runs_one_below_the_other_are_not_cut_in_proportion(rt: HostRuntime) {
    let lists = runs(&rt, rt.alloc(), &[&[1, 2, 3], &[4, 5, 6]]);
    assert!(rt; is_cut_at(&rt, rt.alloc(), &lists, 3, &[3, 0]));
    cuts_as_taken_one_by_one(&rt, rt.alloc(), &lists, 6);
}

// Runs with these keys are cut as their records are taken one by one, up to this many records.
fn are_cut_as_taken(rt: &impl Abort, alloc: Global, keys: &[&[u64]], size: u64) {
    let lists = runs(rt, alloc, keys);
    cuts_as_taken_one_by_one(rt, alloc, &lists, size);
}

#[test]
fn equal_records_and_empty_runs_are_cut_as_taken_one_by_one(rt: HostRuntime) {
    let alloc = rt.alloc();
    are_cut_as_taken(&rt, alloc, &[], 0);
    are_cut_as_taken(&rt, alloc, &[&[]], 0);
    are_cut_as_taken(&rt, alloc, &[&[], &[4, 4, 4, 7]], 4);
    let mixed: [&[u64]; 6] = [&[], &[4, 4, 4, 7], &[4, 4], &[], &[0, 4, 7, 7, 9], &[7]];
    are_cut_as_taken(&rt, alloc, &mixed, 12);
}

#[test]
fn runs_that_do_not_ascend_have_places_that_add_up(rt: HostRuntime) {
    let lists = runs(&rt, rt.alloc(), &[&[9, 1, 8, 2, 7], &[3, 6, 0]]);
    for rank in 0..9 {
        let cuts = cut(&rt, rt.alloc(), &lists, rank);
        assert!(rt; cuts.len() == 2 && cuts[0] <= 5 && cuts[1] <= 3);
        assert!(rt; cuts[0] + cuts[1] == rank);
    }
}

#[test]
fn sizes_add_up(rt: HostRuntime) {
    let lists = runs(&rt, rt.alloc(), &[&[1, 3, 5], &[], &[2, 4]]);
    assert!(rt; lists.len() < 4294967296);
    assert!(rt; size_of(&Lists::new(&lists)) == Some(5));
}
