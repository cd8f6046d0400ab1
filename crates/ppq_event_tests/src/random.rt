//! Random agendas of few times, against the rule written a second time; by 1, 2, 4 and 7 workers.
use crate::desk::{Job, roster, run_job};
use crate::model::Model;
use ppq_budget::Sizes;
use ppq_outside::{Gate, Host, MemRack, MemSink, OpenGate};
use ppq_record::Triple;
use ppq_testkit::{CrowdGate, draw, triple};
use std::alloc::{AllocError, Global};
use std::process::Abort;
use std::test::Fail;

// So many events of times from 1 to 6, at places of the program's roster and just behind them.
fn drawn(alloc: Global, seed: &mut u64, count: u64) -> Result<Vec<Triple>, AllocError> {
    let mut events = Vec::new(alloc);
    for _ in 0..count {
        let (time, target, word) = (draw(seed, 6), draw(seed, 17), draw(seed, 6));
        events.push(triple(time + 1, target, word))?;
    }
    Ok(events)
}

// Whether the journal of these events is the model's, with so many workers.
fn agrees<H: Host + Abort, G: Gate>(
    rt: &H,
    alloc: Global,
    workers: u32,
    events: &[Triple],
    until: u64,
    most: u64,
    gate: &G,
) -> Result<bool, Fail>
where
    H::Dir: Send,
{
    let job = Job {
        sizes: Sizes::new(workers, 2, 1, 3000, 400),
        events,
        until,
        most,
    };
    let mut roster = roster(alloc)?;
    let mut out = MemSink::new(alloc, 100_000)?;
    let ended = run_job(
        rt,
        alloc,
        job,
        &mut roster,
        &mut MemRack::new(),
        &mut out,
        gate,
    )?;
    let mut model = Model::new(alloc, events)?;
    model.run(until, most)?;
    Ok(ended.is_ok() && out.bytes() == model.text())
}

#[test]
fn random_agendas_are_simulated_as_one_thread_does(rt: HostRuntime) -> Result<(), Fail> {
    let alloc = rt.alloc();
    let mut seed = 7;
    for round in 0..12u64 {
        let events = drawn(alloc, &mut seed, round * 5)?;
        let until = draw(&mut seed, 12);
        let most = draw(&mut seed, 120);
        for workers in [1, 2, 4, 7] {
            assert!(rt; agrees(&rt, alloc, workers, &events, until, most, &OpenGate)?);
        }
    }
    Ok(())
}

#[test]
fn each_worker_enters_a_gate_with_bytes(rt: HostRuntime) -> Result<(), Fail> {
    let alloc = rt.alloc();
    // one event, for the place of one of four workers; the others come too
    let gate = CrowdGate::new(4);
    assert!(rt; agrees(&rt, alloc, 4, &[triple(1, 0, 1)], 9, 9, &gate)?);
    assert!(rt; gate.is_passed());
    Ok(())
}
