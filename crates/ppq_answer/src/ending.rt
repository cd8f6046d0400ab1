//! The end of a talk.
ghost use Rattle.ppq_answer.specs.Answers.{FinishesAs};

use crate::halt::Halt;
use crate::outcome::Outcome;
use ppq_engine::{End, Gathered, OnHeap, put_stopped};
use ppq_requests::{Host, Sink};

// Puts what was gathered of a request that stopped, unless it was the sink that stopped it, and says how the talk ends.
pub fn finish<H: Host, O: Sink>(
    rt: &H,
    halt: Halt,
    gathered: &mut Gathered<OnHeap>,
    out: &mut O,
) -> Outcome
    ensures { FinishesAs (O.told out.old) (O.told out.new) (O.faults out.old) (O.faults out.new) gathered.old halt result }
{
    match halt {
        Halt::Over => Outcome::Ended { end: End::Done },
        Halt::Bad { number } => Outcome::BadRequest { number },
        Halt::Source => Outcome::Ended {
            end: End::ReadFault,
        },
        Halt::Stopped { stop } => Outcome::Ended {
            end: put_stopped(rt, stop, gathered, out),
        },
    }
}
