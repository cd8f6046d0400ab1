//! A place of a roster.
ghost use Rattle.std.specs.Prelude.{◌≡◌, ◌≤◌, ◌<◌};
ghost use Rattle.ppq_handler.specs.Roster.{place_at, answered, outcome_at};

use crate::{Handler, Outcome};

// Lets the handler of a place answer an event; none is returned where no handler is there. A handler that
// retires is dropped, and its place is none.
pub(crate) fn answer_in<B: Handler>(
    place: &mut Option<B>,
    now: u64,
    me: u64,
    peers: u64,
    word: u64,
) -> Option<Outcome>
    requires me { me < peers }
    requires peers { peers ≤ 65536 }
    ensures place { place_at B.stands place.new ≡ answered (place_at B.stands place.old) now me peers word }
    ensures outcome { result ≡ outcome_at (place_at B.stands place.old) now me peers word }
{
    let Some(handler) = place else { return None };
    let outcome = handler.handle(now, me, peers, word);
    if outcome.retire {
        *place = None;
    }
    Some(outcome)
}
