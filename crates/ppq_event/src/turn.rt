//! A round.
ghost use Rattle.std.specs.Prelude.{◌≡◌, ◌≤◌, ◌<◌, ◌+◌, ◌^◌, length, max, IfOk, IfErr};
ghost use Rattle.ppq_handler.specs.Roster.{places_of};
ghost use Rattle.ppq_queue.specs.Sizes.{batch_of};
ghost use Rattle.ppq_queue.specs.Shown.{AllTell};
ghost use Rattle.ppq_queue.specs.Holding.{Keeps};
ghost use Rattle.ppq_event.specs.Waiting.{QueueAfter};
ghost use Rattle.ppq_event.specs.Going.{ending_before, text_of, run_at, left_after, SinkAfter, HasMade, StopsRun, IsFew};

use crate::SimFault;
use crate::clock::Clock;
use crate::lines::put_lines;
use crate::push::push_all;
use crate::step::Step;
use crate::take::take_round;
use ppq_handler::{Crew, Ending, Handler, Outcome, Triple, answer_round, round_law};
use ppq_queue::{Gate, Host, Out, Queue, Slot};
use ppq_text::{Gathered, OnHeap, Sink};

// How a run ends before the next event, if it does.
fn ending_before(next: Option<Triple>, clock: Clock) -> Option<Ending>
    ensures { result ≡ ending_before next clock.until clock.left clock.count }
{
    let count = clock.count;
    let Some(event) = next else {
        return Some(Ending::Empty { count });
    };
    if event.time > clock.until {
        return Some(Ending::Until { count });
    }
    if clock.left == 0 {
        return Some(Ending::Full { count });
    }
    None
}

// Takes the events of the smallest time, lets the handlers answer them, writes their lines and pushes what follows.
// Without an event it is as at the end: a queue that has one and gives none has blocks with other bytes than were
// written.
pub(crate) fn turn<H: Host, S: Slot + Send + Sync, O: Sink, G: Gate, B: Handler + Send>(
    crew: &Crew<'_, H, G>,
    queue: &mut Queue<S, Triple>,
    roster: &mut [Option<B>],
    clock: Clock,
    taken: &mut Out<Triple>,
    answers: &mut [Option<Outcome>],
    lines: &mut Gathered<OnHeap>,
    out: &mut O,
) -> Result<Step, SimFault>
where
    H::Dir: Send,
    requires roster { length roster.old ≤ 65536 }
    requires turns { clock.count + clock.left < 2 ^ 64 }
    requires room { taken.old.room ≡ batch_of queue.old.sizes }
    requires answers { length answers.old ≡ taken.old.room }
    ensures keeps { Keeps queue.old queue.new }
    ensures queue { QueueAfter queue.old queue.new result }
    ensures sink { SinkAfter (O.faults out.old) (O.faults out.new) result }
    ensures room { taken.new.room ≡ taken.old.room }
    ensures few { IfOk result (IsFew clock.left queue.old.size queue.new.size) }
    ensures peak { queue.new.peak ≤ max queue.old.peak (queue.old.size + clock.left) }
    ensures made { IfOk result (λ step. AllTell queue.old.slots → HasMade (run_at clock queue.old.bag (places_of B.stands roster.old)) (left_after clock queue.new.bag (places_of B.stands roster.new) step) queue.old.peak queue.new.peak (text_of (O.told out.old) lines.old) (text_of (O.told out.new) lines.new)) }
    ensures stops { IfErr result (λ fault. AllTell queue.old.slots → StopsRun (run_at clock queue.old.bag (places_of B.stands roster.old)) queue.old.peak queue.new.peak (text_of (O.told out.old) lines.old) (text_of (O.told out.new) lines.new) fault) }
{
    round_law();
    let next = match queue.top(crew.rt, crew.gate) {
        Ok(next) => next,
        Err(fault) => return Err(SimFault::Queue(fault)),
    };
    queue.known();
    if let Some(ending) = ending_before(next, clock) {
        return Ok(Step::Ended { ending });
    }
    let Some(event) = next else {
        return Ok(Step::Ended {
            ending: Ending::Empty { count: clock.count },
        });
    };
    if let Err(fault) = take_round(crew, queue, event.time, clock.left, taken) {
        return Err(SimFault::Queue(fault));
    }
    let turns = taken.len() as u64;
    if turns == 0 {
        return Ok(Step::Ended {
            ending: Ending::Empty { count: clock.count },
        });
    }
    let part = &mut answers[..taken.len() as usize];
    answer_round(crew, roster, taken.as_slice(), part);
    if let Err(_failed) = put_lines(crew.rt, taken.as_slice(), part, lines, out) {
        return Err(SimFault::Write);
    }
    match push_all(crew, queue, part) {
        Ok(()) => Ok(Step::Took { turns }),
        Err(fault) => Err(SimFault::Queue(fault)),
    }
}
