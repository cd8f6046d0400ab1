//! The simulation.
ghost use Rattle.std.specs.Prelude.{◌≡◌, ◌≤◌, ◌<◌, ◌+◌, ◌^◌, [], ℕ, length, max, get_or, set, None, IfOk, IfErr};
ghost use Rattle.ppq_handler.specs.ppq_outside.Told.{TakesPart};
ghost use Rattle.ppq_handler.specs.Roster.{places_of};
ghost use Rattle.ppq_handler.specs.Agenda.{run, journal};
ghost use Rattle.ppq_handler.specs.Gone.{MayBeGone, SameForOthers};
ghost use Rattle.ppq_queue.specs.Sizes.{batch_of};
ghost use Rattle.ppq_queue.specs.Shown.{AllTell};
ghost use Rattle.ppq_queue.specs.Holding.{Keeps};
ghost use Rattle.ppq_event.specs.Waiting.{QueueAfter};
ghost use Rattle.ppq_event.specs.Going.{SinkAfter};
ghost use Rattle.ppq_event.specs.Simulated.{Simulates, StopsByQueue, FinishesBy, Leaves};

use crate::clock::Clock;
use crate::journal::end_journal;
use crate::nowhere::forget;
use crate::rounds::run_rounds;
use crate::{Round, SimFault};
use ppq_handler::{Crew, Ending, Handler, Triple, gone_law};
use ppq_queue::{Gate, Host, Queue, Slot};
use ppq_text::{Gathered, OnHeap, Sink};

// Writes what was gathered before a run ended or was stopped, and the line of its ending.
fn finish<H: Host, O: Sink>(
    rt: &H,
    ended: Result<Ending, SimFault>,
    lines: &mut Gathered<OnHeap>,
    out: &mut O,
) -> Result<Ending, SimFault>
    ensures { FinishesBy (O.told out.old) (O.told out.new) (O.faults out.old) (O.faults out.new) lines.old ended result }
{
    let written = match ended {
        Ok(ending) => end_journal(rt, ending, lines, out),
        Err(SimFault::Queue(_fault)) => lines.put(rt, out),
        Err(SimFault::Write) => return ended,
    };
    match written {
        Ok(()) => ended,
        Err(_failed) => Err(SimFault::Write),
    }
}

// Runs the events of a queue with a roster of any handlers.
fn run_journal<H: Host, S: Slot + Send + Sync, O: Sink, G: Gate, B: Handler + Send>(
    crew: &Crew<'_, H, G>,
    queue: &mut Queue<S, Triple>,
    roster: &mut [Option<B>],
    until: u64,
    events: u64,
    round: &mut Round,
    out: &mut O,
) -> Result<Ending, SimFault>
where
    H::Dir: Send,
    requires roster { length roster.old ≤ 65536 }
    requires round { round.old ≡ queue.old.sizes }
    ensures leaves { Leaves (AllTell queue.old.slots) (run until events queue.old.bag (places_of B.stands roster.old)) (places_of B.stands roster.new) queue.old queue.new (O.told out.old) (O.told out.new) (O.faults out.old) (O.faults out.new) result }
    ensures few { queue.new.peak ≤ max queue.old.peak (queue.old.size + events) }
    ensures keeps { Keeps queue.old queue.new }
    ensures round { round.new ≡ round.old }
{
    let Round {
        taken,
        answers,
        lines,
        ..
    } = round;
    forget(crew.rt, lines);
    let start = Clock {
        until,
        left: events,
        count: 0,
    };
    let answers = answers.as_mut_slice();
    let ended = run_rounds(crew, queue, roster, start, taken, answers, lines, out);
    finish(crew.rt, ended, lines, out)
}

/// Handles the events of a queue with the handlers of a roster, and writes the journal: a line for each event, in
/// their order, and one for the ending. The events are the records of the queue; those that follow are pushed to
/// it, and those that were not handled are left in it. Events later than `until` are not handled, and no more than
/// `events` in all.
///
/// The journal, the ending and the roster afterwards are those of the agenda machine, which answers one event after
/// the other, for every number of workers. A handler that retires is dropped, and its place is none.
///
/// An event costs about a `top`, a share of a bulk pop, a call of its handler, a push for each event that
/// follows, and its line. Nothing is allocated. The gate is entered by merges of the queue and by each worker in
/// each round.
///
/// `Write`: the sink failed; it took a prefix of the journal. `Queue`: no block was free, or one failed; the
/// lines of all rounds before, and of the one whose events were handled, were written.
pub fn simulate<H: Host, S: Slot + Send + Sync, O: Sink, G: Gate>(
    rt: &H,
    queue: &mut Queue<S, Triple>,
    roster: &mut Vec<Option<Box<dyn Handler + Send>>>,
    until: u64,
    events: u64,
    out: &mut O,
    gate: &G,
    round: &mut Round,
) -> Result<Ending, SimFault>
where
    H::Dir: Send,
    requires roster { (1 ≤ length roster.old.items) × (length roster.old.items ≤ 65536) }
    requires round { round.old ≡ queue.old.sizes }

    // The machine, where slots tell: after `Ok` its journal, its ending and its places.
    ensures ran { IfOk result (λ ending. AllTell queue.old.slots → Simulates (run until events queue.old.bag (places_of stands roster.old.items)) (places_of stands roster.new.items) (O.told out.old) (O.told out.new) ending) }
    // After a fault the sink took a prefix of the journal; if the queue stopped the run, whole lines, and of no more events than
    // were waiting by then the queue's peak tells.
    ensures part { IfErr result (λ fault. AllTell queue.old.slots → TakesPart (O.told out.old) (O.told out.new) (journal (run until events queue.old.bag (places_of stands roster.old.items)))) }
    ensures lines { IfErr result (λ fault. AllTell queue.old.slots → StopsByQueue (run until events queue.old.bag (places_of stands roster.old.items)) queue.old.peak queue.new.peak (O.told out.old) (O.told out.new) fault) }
    // Nobody feels whether one that may retire has.
    ensures gone { (i : ℕ) → MayBeGone (get_or (places_of stands roster.old.items) i None) → SameForOthers i (run until events queue.old.bag (places_of stands roster.old.items)) (run until events queue.old.bag (set (places_of stands roster.old.items) i None)) }

    // Causes.
    ensures sink { SinkAfter (O.faults out.old) (O.faults out.new) result }
    ensures queue { QueueAfter queue.old queue.new result }
    // Of any blocks: each event that is handled takes one out of the queue and adds two at the most.
    ensures few { queue.new.peak ≤ max queue.old.peak (queue.old.size + events) }

    ensures keeps { Keeps queue.old queue.new }
    ensures round { round.new ≡ round.old }
{
    gone_law();
    let crew = Crew {
        rt,
        gate,
        workers: round.workers(),
        least: round.least_shared(),
    };
    run_journal(
        &crew,
        queue,
        roster.as_mut_slice(),
        until,
        events,
        round,
        out,
    )
}
