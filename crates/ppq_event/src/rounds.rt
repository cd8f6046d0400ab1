//! Rounds, one after the other.
ghost use Rattle.std.specs.Prelude.{◌≡◌, ◌≤◌, ◌<◌, ◌+◌, ◌^◌, length, max, IfOk, IfErr};
ghost use Rattle.ppq_handler.specs.Roster.{places_of};
ghost use Rattle.ppq_handler.specs.Agenda.{ended};
ghost use Rattle.ppq_queue.specs.Sizes.{batch_of};
ghost use Rattle.ppq_queue.specs.Shown.{AllTell};
ghost use Rattle.ppq_queue.specs.Holding.{Keeps};
ghost use Rattle.ppq_event.specs.Waiting.{QueueAfter};
ghost use Rattle.ppq_event.specs.Going.{text_of, run_at, SinkAfter, HasMade, StopsRun};

use crate::SimFault;
use crate::clock::Clock;
use crate::step::Step;
use crate::turn::turn;
use ppq_handler::{Crew, Ending, Handler, Outcome, Triple};
use ppq_queue::{Gate, Host, Out, Queue, Slot};
use ppq_text::{Gathered, OnHeap, Sink};

// Takes round after round until the run has ended.
pub(crate) fn run_rounds<H: Host, S: Slot + Send + Sync, O: Sink, G: Gate, B: Handler + Send>(
    crew: &Crew<'_, H, G>,
    queue: &mut Queue<S, Triple>,
    roster: &mut [Option<B>],
    start: Clock,
    taken: &mut Out<Triple>,
    answers: &mut [Option<Outcome>],
    lines: &mut Gathered<OnHeap>,
    out: &mut O,
) -> Result<Ending, SimFault>
where
    H::Dir: Send,
    requires roster { length roster.old ≤ 65536 }
    requires turns { start.count + start.left < 2 ^ 64 }
    requires room { taken.old.room ≡ batch_of queue.old.sizes }
    requires answers { length answers.old ≡ taken.old.room }
    ensures keeps { Keeps queue.old queue.new }
    ensures queue { QueueAfter queue.old queue.new result }
    ensures peak { queue.new.peak ≤ max queue.old.peak (queue.old.size + start.left) }
    ensures sink { SinkAfter (O.faults out.old) (O.faults out.new) result }
    ensures room { taken.new.room ≡ taken.old.room }
    ensures made { IfOk result (λ ending. AllTell queue.old.slots → HasMade (run_at start queue.old.bag (places_of B.stands roster.old)) (ended ending (places_of B.stands roster.new)) queue.old.peak queue.new.peak (text_of (O.told out.old) lines.old) (text_of (O.told out.new) lines.new)) }
    ensures stops { IfErr result (λ fault. AllTell queue.old.slots → StopsRun (run_at start queue.old.bag (places_of B.stands roster.old)) queue.old.peak queue.new.peak (text_of (O.told out.old) lines.old) (text_of (O.told out.new) lines.new) fault) }
{
    let mut clock = start;
    'rounds: loop {
        match turn(crew, queue, roster, clock, taken, answers, lines, out)? {
            Step::Ended { ending } => return Ok(ending),
            Step::Took { turns } => {
                clock.left -= turns;
                clock.count += turns;
            }
        }
    }
}
