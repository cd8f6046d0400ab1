//! A simulation over blocks in memory.
use ppq_budget::Sizes;
use ppq_event::{
    CountHandler, Ending, ForkHandler, Handler, MortalHandler, RelayHandler, Round, SimFault,
    simulate,
};
use ppq_outside::{Gate, Host, MemRack, MemSink};
use ppq_queue::Queue;
use ppq_record::Triple;
use ppq_testkit::{blocks_of, pushed};
use std::alloc::{AllocError, Global};
use std::test::Fail;

// A roster as programs have them.
pub(crate) type Roster = Vec<Option<Box<dyn Handler + Send>>>;

// Two workers, two records a block, one block a heap, 200 blocks, and a budget without a buffer.
pub(crate) fn small() -> Option<Sizes> {
    Sizes::new(2, 2, 1, 372, 200)
}

// The roster of the program: Count, Relay and Fork by turns at 12 places, and Mortal at 4 more.
pub(crate) fn roster(alloc: Global) -> Result<Roster, AllocError> {
    let mut roster: Roster = Vec::new(alloc);
    for i in 0..16u64 {
        let handler: Box<dyn Handler + Send> = match i % 3 {
            _ if i >= 12 => Box::new(alloc, MortalHandler::new())?,
            0 => Box::new(alloc, CountHandler::new())?,
            1 => Box::new(alloc, RelayHandler::new())?,
            _ => Box::new(alloc, ForkHandler::new())?,
        };
        roster.push(Some(handler))?;
    }
    Ok(roster)
}

// A roster of forks, whose events are more and more until their words are 1.
pub(crate) fn forks(alloc: Global) -> Result<Roster, AllocError> {
    let mut roster: Roster = Vec::new(alloc);
    for _ in 0..16 {
        let handler: Box<dyn Handler + Send> = Box::new(alloc, ForkHandler::new())?;
        roster.push(Some(handler))?;
    }
    Ok(roster)
}

// What is to be simulated.
#[derive(Clone, Copy)]
pub(crate) struct Job<'a> {
    pub(crate) sizes: Option<Sizes>,
    pub(crate) events: &'a [Triple],
    pub(crate) until: u64,
    pub(crate) most: u64,
}

// Simulates a job with a roster, and says how it ended.
pub(crate) fn run_job<H: Host, G: Gate>(
    rt: &H,
    alloc: Global,
    job: Job<'_>,
    roster: &mut Roster,
    rack: &mut MemRack,
    out: &mut MemSink,
    gate: &G,
) -> Result<Result<Ending, SimFault>, Fail>
where
    H::Dir: Send,
{
    let sizes = job.sizes.ok_or("a number is out of range")?;
    if roster.is_empty() || roster.len() > 65_536 {
        return Err(Fail::from("a roster of no place, or of too many"));
    }
    let slots = blocks_of::<H, Triple>(rt, alloc, rack, sizes)?;
    let empty = match Queue::open(alloc, sizes, slots) {
        Ok(queue) => queue,
        Err(_) => return Err(Fail::from("the queue was not opened")),
    };
    let mut queue = pushed(rt, empty, job.events)?;
    let mut round = Round::new(alloc, &sizes)?;
    let ended = simulate(
        rt, &mut queue, roster, job.until, job.most, out, gate, &mut round,
    );
    let slots = queue.close();
    if slots.len() != sizes.blocks() as usize {
        return Err(Fail::from("not all blocks came back"));
    }
    Ok(ended)
}
