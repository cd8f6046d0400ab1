//! Answers requests, one after the other.
ghost use Rattle.std.specs.Prelude.{◌≡◌, None, IfSome, IfNone};
ghost use Rattle.ppq_frames.specs.Frames.{IsPart};
ghost use Rattle.ppq_answer.specs.Talking.{AnswersFirst, IsRefused, IsUntouched, Talks};

use crate::answer::{answer, conclude};
use crate::halt::Halt;
use crate::waiting::wait;
use ppq_engine::{Machine, Stop, World};
use ppq_frames::{Filled, Found, Incoming, Source};
use ppq_requests::{Fields, Gate, Host, Sink, Slot, is_request};

// Answers the request that stands first, and takes it; `None` if it is no request. It is looked at whole before any of
// it is executed.
fn answer_first<H: Host, S: Slot + Send + Sync, R: Fields + Send + Sync, O: Sink, G: Gate>(
    machine: &mut Machine<S, R>,
    world: &World<'_, H, G>,
    incoming: &mut Incoming,
    out: &mut O,
) -> Option<Result<(), Stop>>
where
    H::Dir: Send,
    requires sound { machine.old.queue.failed ≡ None }
    requires awaited { ¬ IsPart incoming.old }
    ensures taken { IfSome result (AnswersFirst R.Fields world.now.form incoming.old incoming.new (O.told out.old) (O.told out.new) (O.faults out.old) (O.faults out.new) machine.old.queue machine.new.queue machine.old.desk.gathered machine.new.desk.gathered) }
    ensures refused { IfNone result (IsRefused R.Fields incoming.old) }
    ensures untouched { IfNone result (IsUntouched machine.old.queue machine.new.queue machine.old.desk.gathered machine.new.desk.gathered incoming.old incoming.new (O.told out.old) (O.told out.new) (O.faults out.old) (O.faults out.new)) }
{
    let request = match incoming.first() {
        Found::Request { request } => request,
        Found::TooLong => return None,
        Found::Part => return None,
    };
    if !is_request::<R>(request) {
        return None;
    }
    let answered = answer(machine, world, request, out);
    incoming.skip();
    Some(answered)
}

// Answers the first frame, which was taken before, and then requests as long as they come. Each is looked at whole
// before any of it is executed, and its answer is put before the next one is looked at. The source is called only while
// less than a frame came. The first request has number 2, as the frame behind the first one; none has number 2^64 - 1.
pub fn talk<H: Host, S: Slot + Send + Sync, R: Fields + Send + Sync, I: Source, O: Sink, G: Gate>(
    machine: &mut Machine<S, R>,
    world: &World<'_, H, G>,
    incoming: &mut Incoming,
    source: &mut I,
    out: &mut O,
) -> Halt
where
    H::Dir: Send,
    requires sound { machine.old.queue.failed ≡ None }
    ensures { Talks R.Fields world.now.form I.Source source.old source.new incoming.new (O.told out.old) (O.told out.new) (O.faults out.old) (O.faults out.new) machine.old.queue machine.new.queue machine.old.desk.gathered machine.new.desk.gathered incoming.old result }
{
    match conclude(machine, world, out) {
        Ok(()) => {}
        Err(stop) => return Halt::Stopped { stop },
    }
    'requests: for number in 2..u64::MAX {
        match wait(world.rt, incoming, source) {
            Ok(filled) => match filled {
                Filled::More => {}
                Filled::End => return Halt::Over,
                Filled::CutOff => return Halt::Bad { number },
            },
            Err(_) => return Halt::Source,
        }
        match answer_first(machine, world, incoming, out) {
            Some(answered) => match answered {
                Ok(()) => {}
                Err(stop) => return Halt::Stopped { stop },
            },
            None => return Halt::Bad { number },
        }
    }
    Halt::Bad { number: u64::MAX }
}
