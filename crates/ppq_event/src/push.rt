//! What follows from the events of a round is pushed.
ghost use Rattle.std.specs.Prelude.{◌≡◌, ◌+◌, length, flat_map, IfErr, OnOk, None};
ghost use Rattle.ppq_handler.specs.Agenda.{some_of, follow_ups};
ghost use Rattle.ppq_event.specs.Waiting.{HasGrown, HasRefused};

use ppq_handler::{Crew, Outcome, Triple};
use ppq_queue::{Gate, Host, Queue, QueueFault, Slot};

// Pushes an event, if there is one.
fn push_some<H: Host, S: Slot + Send + Sync, G: Gate>(
    crew: &Crew<'_, H, G>,
    queue: &mut Queue<S, Triple>,
    event: Option<Triple>,
) -> Result<(), QueueFault>
where
    H::Dir: Send,
    requires { queue.old.failed ≡ None }
    ensures added { OnOk result (HasGrown queue.old queue.new (some_of event)) }
    ensures refused { IfErr result (HasRefused queue.old queue.new (queue.old.size + length (some_of event))) }
{
    let Some(event) = event else { return Ok(()) };
    match queue.push(crew.rt, event, crew.gate) {
        Ok(()) => Ok(()),
        Err((_event, fault)) => Err(fault),
    }
}

// Pushes what follows from an answer.
fn push_follow_ups<H: Host, S: Slot + Send + Sync, G: Gate>(
    crew: &Crew<'_, H, G>,
    queue: &mut Queue<S, Triple>,
    answer: Option<Outcome>,
) -> Result<(), QueueFault>
where
    H::Dir: Send,
    requires { queue.old.failed ≡ None }
    ensures added { OnOk result (HasGrown queue.old queue.new (follow_ups answer)) }
    ensures refused { IfErr result (HasRefused queue.old queue.new (queue.old.size + length (follow_ups answer))) }
{
    let Some(outcome) = answer else { return Ok(()) };
    push_some(crew, queue, outcome.first)?;
    push_some(crew, queue, outcome.second)
}

// Pushes what follows from answers, in their order.
pub(crate) fn push_all<H: Host, S: Slot + Send + Sync, G: Gate>(
    crew: &Crew<'_, H, G>,
    queue: &mut Queue<S, Triple>,
    answers: &[Option<Outcome>],
) -> Result<(), QueueFault>
where
    H::Dir: Send,
    requires { queue.old.failed ≡ None }
    ensures added { OnOk result (HasGrown queue.old queue.new (flat_map follow_ups answers.now)) }
    ensures refused { IfErr result (HasRefused queue.old queue.new (queue.old.size + length (flat_map follow_ups answers.now))) }
{
    'pushing: for i in 0..answers.len() {
        push_follow_ups(crew, queue, answers[i])?;
    }
    Ok(())
}
