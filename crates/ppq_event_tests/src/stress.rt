//! A hundred thousand events of fifty times, by 1, 2, 4 and 7 workers: the journal is that of one worker.
use crate::desk::{Job, roster, run_job};
use ppq_budget::Sizes;
use ppq_outside::{Host, MemRack, MemSink, OpenGate};
use ppq_record::Triple;
use ppq_testkit::{draw, triple};
use std::alloc::{AllocError, Global};
use std::process::Abort;
use std::test::Fail;

// How many events there are at first.
const EVENTS: u64 = 100_000;

// How many times these have.
const TIMES: u64 = 50;

// Events at places of the program's roster and just behind them.
fn crowded(alloc: Global) -> Result<Vec<Triple>, AllocError> {
    let mut events = Vec::new(alloc);
    let mut seed = 13;
    for i in 0..EVENTS {
        let (target, word) = (draw(&mut seed, 17), draw(&mut seed, 6));
        events.push(triple(i % TIMES + 1, target, word))?;
    }
    Ok(events)
}

// What the sink took of their journal, with so many workers. A worker's heap has 64 events, and the budget room for
// some thousand, so most of them wait in blocks.
fn journal<H: Host>(rt: &H, alloc: Global, workers: u32, events: &[Triple]) -> Result<MemSink, Fail>
where
    H::Dir: Send,
{
    let job = Job {
        sizes: Sizes::new(workers, 64, 1, 13_000, 5_000),
        events,
        until: 1_000,
        most: 1_000_000,
    };
    let mut roster = roster(alloc)?;
    let mut out = MemSink::new(alloc, 4_000_000)?;
    let mut rack = MemRack::new();
    let ended = run_job(rt, alloc, job, &mut roster, &mut rack, &mut out, &OpenGate)?;
    if ended.is_err() {
        return Err(Fail::from("the run was stopped"));
    }
    Ok(out)
}

#[test]
fn the_journal_of_a_hundred_thousand_events_is_that_of_one_worker(
    rt: HostRuntime,
) -> Result<(), Fail> {
    let alloc = rt.alloc();
    let events = crowded(alloc)?;
    let one = journal(&rt, alloc, 1, &events)?;
    // what `bench/sim.py` writes of them has so many bytes, and ends so
    assert_eq!(rt; one.bytes().len(), 2_083_059);
    assert!(rt; one.bytes().ends_with(b"end empty count 195259\n"));
    for workers in [2, 4, 7] {
        let more = journal(&rt, alloc, workers, &events)?;
        assert!(rt; more.bytes() == one.bytes(), "{workers} workers");
    }
    Ok(())
}
