//! A round: events of one time, answered by workers beside each other.
ghost use Rattle.std.specs.Prelude.{◌≡◌, ◌≤◌, ◌<◌, ◌+◌, ◌^◌, length, map};
ghost use Rattle.std.specs.Thread.{IsSync, IsSend};
ghost use Rattle.ppq_handler.specs.Roster.{places_of};
ghost use Rattle.ppq_handler.specs.Parts.{begin_of, IsPart, IsSplit, AnswersAll};

use crate::part::Part;
use crate::roster::answer_all;
use crate::{Crew, Handler, Outcome};
use ppq_outside::Gate;
use ppq_record::Triple;
use std::thread::{Threads, join_mut};

// The first event that is for no place below `cut`, where the targets do not fall.
fn first_from(events: &[Triple], cut: u64) -> usize
    ensures { IsSplit events.now cut result }
{
    let mut at = 0;
    'seeking: while at < events.len() && events[at].target < cut {
        at += 1;
    }
    at
}

// The place with which a worker begins.
fn begin(workers: u32, peers: u64, worker: u32) -> u64
    requires some { worker < workers }
    requires few { peers ≤ 65536 }
    ensures { result ≡ begin_of workers peers worker }
{
    u64::from(worker) * peers / u64::from(workers)
}

// Lets the workers of a part answer their events, each on a thread of its own. Each enters the gate before it.
#[cycle(halves)]
pub(crate) fn answer_part<H: Threads + Sync, G: Gate, B: Handler + Send>(
    part: &Part<'_, H, G>,
    places: &mut [Option<B>],
    answers: &mut [Option<Outcome>],
)
    requires part { IsPart part.now.workers part.now.peers part.now.first part.now.count part.now.base (length places.old) }
    requires answers { length answers.old ≡ length part.now.events.now }
    ensures { AnswersAll part.now.base part.now.peers part.now.events.now (places_of B.stands places.old) (places_of B.stands places.new) answers.new }
{
    let Part {
        rt,
        gate,
        events,
        workers,
        peers,
        first,
        count,
        base,
    } = *part;
    if count == 1 {
        gate.enter(first);
        answer_all(places, base, peers, events, answers);
        return;
    }
    let half = count / 2;
    let middle = first + half;
    let cut = begin(workers, peers, middle);
    let at = first_from(events, cut);
    let (low_events, high_events) = events.split_at(at);
    let (low_places, high_places) = places.split_at_mut((cut - base) as usize);
    let (low_answers, high_answers) = answers.split_at_mut(at);
    let low = Part {
        rt,
        gate,
        events: low_events,
        workers,
        peers,
        first,
        count: half,
        base,
    };
    let high = Part {
        rt,
        gate,
        events: high_events,
        workers,
        peers,
        first: middle,
        count: count - half,
        base: cut,
    };
    answer_both(
        &low,
        low_places,
        low_answers,
        &high,
        high_places,
        high_answers,
    );
}

// Lets the workers of two parts answer side by side.
#[cycle(halves)]
fn answer_both<H: Threads + Sync, G: Gate, B: Handler + Send>(
    low: &Part<'_, H, G>,
    low_places: &mut [Option<B>],
    low_answers: &mut [Option<Outcome>],
    high: &Part<'_, H, G>,
    high_places: &mut [Option<B>],
    high_answers: &mut [Option<Outcome>],
)
    requires low { IsPart low.now.workers low.now.peers low.now.first low.now.count low.now.base (length low_places.old) }
    requires low_answers { length low_answers.old ≡ length low.now.events.now }
    requires high { IsPart high.now.workers high.now.peers high.now.first high.now.count high.now.base (length high_places.old) }
    requires high_answers { length high_answers.old ≡ length high.now.events.now }
    ensures low { AnswersAll low.now.base low.now.peers low.now.events.now (places_of B.stands low_places.old) (places_of B.stands low_places.new) low_answers.new }
    ensures high { AnswersAll high.now.base high.now.peers high.now.events.now (places_of B.stands high_places.old) (places_of B.stands high_places.new) high_answers.new }
{
    join_mut(
        low.rt,
        &mut ||
            requires { IsSync H.row × IsSync G.row × IsSend B.row × IsPart low.now.workers low.now.peers low.now.first low.now.count low.now.base (length low_places.now) × (length low_answers.now ≡ length low.now.events.now) }
            ensures { AnswersAll low.entry.now.base low.entry.now.peers low.entry.now.events.now (places_of B.stands low_places.entry.now) (places_of B.stands low_places.exit.now) low_answers.exit.now }
        { answer_part(low, low_places, low_answers) },
        &mut ||
            requires { IsSync H.row × IsSync G.row × IsSend B.row × IsPart high.now.workers high.now.peers high.now.first high.now.count high.now.base (length high_places.now) × (length high_answers.now ≡ length high.now.events.now) }
            ensures { AnswersAll high.entry.now.base high.entry.now.peers high.entry.now.events.now (places_of B.stands high_places.entry.now) (places_of B.stands high_places.exit.now) high_answers.exit.now }
        { answer_part(high, high_places, high_answers) },
    );
}

// Whether the workers share a round of so many events. A gate of no bytes holds nobody, so the calling thread can
// enter it for each of them.
fn is_shared<H, G>(crew: &Crew<'_, H, G>, events: usize) -> bool {
    events >= crew.least || size_of_val(crew.gate) != 0
}

// Lets the handlers of a roster answer events in turn, on the calling thread, which enters the gate as each worker.
fn answer_in_turn<H, G: Gate, B: Handler>(
    crew: &Crew<'_, H, G>,
    roster: &mut [Option<B>],
    events: &[Triple],
    answers: &mut [Option<Outcome>],
)
    requires roster { length roster.old ≤ 65536 }
    requires answers { length answers.old ≡ length events.now }
    ensures { AnswersAll 0 (length roster.old) events.now (places_of B.stands roster.old) (places_of B.stands roster.new) answers.new }
{
    for worker in 0..crew.workers {
        crew.gate.enter(worker);
    }
    let peers = roster.len() as u64;
    answer_all(roster, 0, peers, events, answers);
}

/// Lets the handlers of a roster answer events, those of a place in their order, by the workers of a crew beside each
/// other. Worker `j` has the places from `j * m / p` up to, but not including, `(j + 1) * m / p`, both rounded
/// down, with `m` the length of the roster and `p` the number of workers, and enters the gate before its first
/// event. A handler that retires is dropped, and its place is none.
///
/// The events are in ascending order and of one time; then the answers and the places are those of one thread.
///
/// Where there are fewer events than a thread is worth (`Crew::least`), the calling thread has all places; it
/// enters the gate for each worker. If the gate has bytes, each worker has its thread all the same.
pub fn answer_round<H: Threads + Sync, G: Gate, B: Handler + Send>(
    crew: &Crew<'_, H, G>,
    roster: &mut [Option<B>],
    events: &[Triple],
    answers: &mut [Option<Outcome>],
)
    requires roster { length roster.old ≤ 65536 }
    requires answers { length answers.old ≡ length events.now }
    ensures { AnswersAll 0 (length roster.old) events.now (places_of B.stands roster.old) (places_of B.stands roster.new) answers.new }
{
    if !is_shared(crew, events.len()) {
        answer_in_turn(crew, roster, events, answers);
        return;
    }
    let Crew {
        rt,
        gate,
        workers,
        ..
    } = *crew;
    let peers = roster.len() as u64;
    let part = Part {
        rt,
        gate,
        events,
        workers,
        peers,
        first: 0,
        count: workers,
        base: 0,
    };
    answer_part(&part, roster, answers);
}
