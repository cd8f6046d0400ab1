//! Handlers that answer events in turn.
ghost use Rattle.std.specs.Prelude.{◌≡◌, ◌≤◌, ◌<◌, ◌+◌, ℕ, length, map};
ghost use Rattle.ppq_handler.specs.Roster.{places_of};
ghost use Rattle.ppq_handler.specs.Agenda.{answer_of, places_after, answers_to, places_after_all};

use crate::place::answer_in;
use crate::{Handler, Outcome};
use ppq_record::Triple;

#[tactic(auto, using(crate::proofs::Places::places_set))]
// Lets the handler of an event's place answer it, where the first of these places has the number `base`; none where the
// event is for no place of these.
fn answer_at<B: Handler>(
    places: &mut [Option<B>],
    base: u64,
    peers: u64,
    event: Triple,
) -> Option<Outcome>
    requires places { base + length places.old ≤ peers }
    requires peers { peers ≤ 65536 }
    ensures outcome { result ≡ answer_of base peers (places_of B.stands places.old) event }
    ensures places { places_of B.stands places.new ≡ places_after base peers (places_of B.stands places.old) event }
{
    let place = event.target.checked_sub(base)?;
    if place >= places.len() as u64 {
        return None;
    }
    answer_in(
        &mut places[place as usize],
        event.time,
        event.target,
        peers,
        event.word,
    )
}

// Lets handlers answer events in turn.
pub(crate) fn answer_all<B: Handler>(
    places: &mut [Option<B>],
    base: u64,
    peers: u64,
    events: &[Triple],
    answers: &mut [Option<Outcome>],
)
    requires places { base + length places.old ≤ peers }
    requires peers { peers ≤ 65536 }
    requires answers { length answers.old ≡ length events.now }
    ensures answers { answers.new ≡ answers_to base peers events.now (places_of B.stands places.old) }
    ensures places { places_of B.stands places.new ≡ places_after_all base peers events.now (places_of B.stands places.old) }
{
    'answering: for i in 0..events.len() {
        answers[i] = answer_at(places, base, peers, events[i]);
    }
}
