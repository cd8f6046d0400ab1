//! The events of a round are taken out of the queue.
ghost use Rattle.std.specs.Prelude.{◌≡◌, ◌<◌, ◌-◌, ◌^◌, min, IfErr, OnOk, None};
ghost use Rattle.std.specs.List.{AllByRecursion as Each};
ghost use Rattle.ppq_queue.specs.Sizes.{batch_of};
ghost use Rattle.ppq_event.specs.Waiting.{TakesRound, HasRefused};

use ppq_handler::{Crew, Triple};
use ppq_queue::{Gate, Host, Out, Queue, QueueFault, Record, Slot};

// Takes the events of a time that is not the last one: those before the next time.
fn take_before_next<H: Host, S: Slot + Send + Sync, G: Gate>(
    crew: &Crew<'_, H, G>,
    queue: &mut Queue<S, Triple>,
    time: u64,
    most: u64,
    taken: &mut Out<Triple>,
) -> Result<(), QueueFault>
where
    H::Dir: Send,
    requires time { time < 2 ^ 64 - 1 }
    requires some { 0 < most }
    requires sound { queue.old.failed ≡ None }
    requires room { taken.old.room ≡ batch_of queue.old.sizes }
    requires place { 0 < taken.old.room }
    ensures took { OnOk result (TakesRound time (min most taken.old.room) queue.old queue.new taken.new.items) }
    ensures refused { IfErr result (HasRefused queue.old queue.new queue.old.size) }
    ensures room { taken.new.room ≡ taken.old.room }
{
    let next = Triple {
        time: time + 1,
        target: 0,
        word: 0,
    };
    queue.bulk_pop_limit(crew.rt, next, most, taken, crew.gate)?;
    Ok(())
}

// Says of events that no time is later than the last one. It does nothing.
fn known_times(events: &[Triple])
    ensures { Each (λ e. e.time < 2 ^ 64) events.now }
{
    'knowing: for i in 0..events.len() {
        events[i].known();
    }
}

// Takes the events of the last time: nothing is later.
fn take_last<H: Host, S: Slot + Send + Sync, G: Gate>(
    crew: &Crew<'_, H, G>,
    queue: &mut Queue<S, Triple>,
    most: u64,
    taken: &mut Out<Triple>,
) -> Result<(), QueueFault>
where
    H::Dir: Send,
    requires some { 0 < most }
    requires sound { queue.old.failed ≡ None }
    requires room { taken.old.room ≡ batch_of queue.old.sizes }
    requires place { 0 < taken.old.room }
    ensures took { OnOk result (TakesRound (2 ^ 64 - 1) (min most taken.old.room) queue.old queue.new taken.new.items) }
    ensures refused { IfErr result (HasRefused queue.old queue.new queue.old.size) }
    ensures room { taken.new.room ≡ taken.old.room }
{
    queue.bulk_pop(crew.rt, most, taken, crew.gate)?;
    known_times(taken.as_slice());
    Ok(())
}

// Takes the events of the smallest time out, which is this one: at most so many, and at most as many as the list
// has room for.
pub(crate) fn take_round<H: Host, S: Slot + Send + Sync, G: Gate>(
    crew: &Crew<'_, H, G>,
    queue: &mut Queue<S, Triple>,
    time: u64,
    most: u64,
    taken: &mut Out<Triple>,
) -> Result<(), QueueFault>
where
    H::Dir: Send,
    requires some { 0 < most }
    requires sound { queue.old.failed ≡ None }
    requires room { taken.old.room ≡ batch_of queue.old.sizes }
    requires place { 0 < taken.old.room }
    ensures took { OnOk result (TakesRound time (min most taken.old.room) queue.old queue.new taken.new.items) }
    ensures refused { IfErr result (HasRefused queue.old queue.new queue.old.size) }
    ensures room { taken.new.room ≡ taken.old.room }
{
    if time == u64::MAX {
        return take_last(crew, queue, most, taken);
    }
    take_before_next(crew, queue, time, most, taken)
}
