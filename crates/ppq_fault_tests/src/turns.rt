//! Each call of the outside fails in turn, a run each: 20 calls of the library, 10 puts and some 200 calls of blocks in
//! all. Passes go on side by side, so that what they do to which block may differ a little from run to run.

use crate::call::{Call, Faults};
use crate::cases::{AGENDA, CASES, Case, EARLY, GRAPH, Text, text_of};
use crate::runs::{Ran, are_all, are_read_rarely, calls_of, faults_of, run};
use ppq_cli::End;
use ppq_outside::{Host, Slot};
use std::alloc::Global;
use std::process::Abort;
use std::test::Fail;

// Where blocks are called so many times or more, every tenth of these calls fails in turn, else each.
const MANY: usize = 200;

const EVERY: usize = 10;

// Whether a run in which a call was to fail ended as it should: with that call's cause where it failed, and then
// no other call did, and else with all that the script writes.
fn is_right<S: Slot>(ran: &Ran<S>, text: &Text, call: Call, faults: Faults) -> bool {
    let whole = ran.end == End::Done && ran.written == text.output.len();
    let failed = ran.end == call.end() && faults == call.faults();
    ran.is_prefix
        && if faults == Faults::NONE {
            whole
        } else {
            failed
        }
}

/// Asserts that the script of a case ended as it should where a call was to fail. Says whether it failed.
pub fn has_failed<S: Slot>(
    rt: &impl Abort,
    alloc: Global,
    case: &Case,
    text: &Text,
    call: Call,
    ran: &Ran<S>,
) -> bool {
    let faults = faults_of(ran, call);
    let came_back = are_all(rt, alloc, &ran.blocks, case.blocks);
    assert!(rt; is_right(ran, text, call, faults), "{call:?}: {faults:?}");
    assert!(rt; are_read_rarely(&ran.blocks), "{call:?}");
    assert!(rt;
        came_back | (faults.library > 0 && ran.blocks.is_empty()),
        "{call:?}"
    );
    faults != Faults::NONE
}

// Asserts how the script of a case ends where a call fails. Says whether the call was reached.
fn fails<H: Host + Abort>(rt: &H, alloc: Global, case: &Case, text: &Text, call: Call) -> bool
where
    H::Dir: Send,
{
    let ran = run(rt, alloc, case, text, call);
    has_failed(rt, alloc, case, text, call, &ran)
}

// The calls of blocks where no call fails.
fn counted<H: Host + Abort>(rt: &H, alloc: Global, case: &Case, text: &Text) -> Vec<Call>
where
    H::Dir: Send,
{
    let ran = run(rt, alloc, case, text, Call::No);
    let faults = faults_of(&ran, Call::No);
    assert!(rt; is_right(&ran, text, Call::No, faults));
    calls_of(rt, alloc, &ran.blocks)
}

// How many calls failed in turn, and how many of them were reached.
#[derive(Clone, Copy)]
struct Tally {
    cases: u64,
    reached: u64,
}

impl Tally {
    fn with(self, is_reached: bool) -> Tally {
        Tally {
            cases: self.cases.saturating_add(1),
            reached: self.reached.saturating_add(u64::from(is_reached)),
        }
    }
}

// Lets each call of each block fail in turn.
fn each_block<H: Host + Abort>(rt: &H, alloc: Global, case: &Case) -> Tally
where
    H::Dir: Send,
{
    let text = text_of(rt, alloc, case);
    let mut tally = Tally {
        cases: 0,
        reached: 0,
    };
    let calls = counted(rt, alloc, case, &text);
    for (at, call) in calls.iter().enumerate() {
        if calls.len() < MANY || at % EVERY == 0 {
            tally = tally.with(fails(rt, alloc, case, &text, *call));
        }
    }
    tally
}

// Lets each call of the library fail in turn, up to one that is not reached. How many were.
fn each_of_library<H: Host + Abort>(rt: &H, alloc: Global, case: &Case) -> u64
where
    H::Dir: Send,
{
    let text = text_of(rt, alloc, case);
    for call in 1..1_000 {
        if !fails(rt, alloc, case, &text, Call::Library { call }) {
            return call - 1;
        }
    }
    1_000
}

// Lets each put fail in turn, up to one that is not reached. How many were.
fn each_put<H: Host + Abort>(rt: &H, alloc: Global, case: &Case) -> u64
where
    H::Dir: Send,
{
    let text = text_of(rt, alloc, case);
    for call in 1..1_000 {
        if !fails(rt, alloc, case, &text, Call::Put { call }) {
            return call - 1;
        }
    }
    1_000
}

// Lets each call of the outside fail in turn, for each script.
fn each_fails<H: Host + Abort>(rt: &H, alloc: Global) -> Result<(), Fail>
where
    H::Dir: Send,
{
    let (mut library, mut puts) = (0u64, 0u64);
    for case in CASES {
        let Tally { cases, reached } = each_block(rt, alloc, case);
        println!(rt; "blocks {cases}, reached {reached}")?;
        assert!(rt; reached > 0);
        library = library.saturating_add(each_of_library(rt, alloc, case));
        puts = puts.saturating_add(each_put(rt, alloc, case));
    }
    // the length and the bytes of five scripts and of the file; the output of the last script, 210,016 bytes, is put by
    // 64 KiB or a little less, and that of each other one at once
    assert_eq!(rt; (library, puts), (12, 8));
    Ok(())
}

// Asserts that a script writes nothing where this call of block 0 fails, and that all blocks come back, with that
// fault alone.
fn writes_nothing<H: Host + Abort>(rt: &H, alloc: Global, call: u64, case: &Case)
where
    H::Dir: Send,
{
    let text = text_of(rt, alloc, case);
    let call = Call::Block { number: 0, call };
    let ran = run(rt, alloc, case, &text, call);
    let faults = faults_of(&ran, call);
    let came_back = are_all(rt, alloc, &ran.blocks, case.blocks);
    let ended = (ran.end == End::DeviceFault { number: 0 }) & (faults == call.faults());
    assert!(rt;
        ended & came_back & (ran.written == 0),
        "{call:?}: {faults:?}"
    );
}

// Each of these scripts writes nothing.
fn early_write_nothing<H: Host + Abort>(rt: &H, alloc: Global)
where
    H::Dir: Send,
{
    for (call, case) in EARLY {
        writes_nothing(rt, alloc, *call, case);
    }
}

// Lets each call of the outside fail in turn, for an agenda or a graph: so many calls of the library. All it writes is put
// at once.
fn each_fails_of_file<H: Host + Abort>(rt: &H, alloc: Global, case: &Case, calls: u64)
where
    H::Dir: Send,
{
    let blocks = each_block(rt, alloc, case);
    assert!(rt; blocks.reached > 0);
    let library = each_of_library(rt, alloc, case);
    let puts = each_put(rt, alloc, case);
    assert_eq!(rt; (library, puts), (calls, 1));
}

#[test]
fn each_call_that_fails_of_an_agenda_has_its_end(rt: HostRuntime) {
    // its length is asked for, and then its eight events are read by four
    each_fails_of_file(&rt, rt.alloc(), &AGENDA, 3);
}

#[test]
fn each_call_that_fails_of_a_graph_has_its_end(rt: HostRuntime) {
    // the same with sixteen edges
    each_fails_of_file(&rt, rt.alloc(), &GRAPH, 5);
}

#[test]
fn a_fault_before_the_first_answer_writes_nothing(rt: HostRuntime) {
    early_write_nothing(&rt, rt.alloc());
}

#[test]
fn each_call_that_fails_has_its_end(rt: HostRuntime) -> Result<(), Fail> {
    each_fails(&rt, rt.alloc())
}
