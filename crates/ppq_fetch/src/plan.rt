//! What a turn does, and the records that are safe.
ghost use Rattle.std.specs.Prelude.{◌≡◌, ◌<◌, length};
ghost use Rattle.ppq_fetch.specs.Hints.{AreHints};
ghost use Rattle.ppq_fetch.specs.Plan.{MayPlan, IsPlan};

use crate::bench::Bench;
use crate::edge::{Edge, choose_edge};
use crate::mark::mark_runs;
use crate::turn::{Turn, choose, first_of, next_block};
use ppq_array::{ExternalArray, InternalArray, Record, Slot, record_laws};

// Says what is to be done next, and marks how many loaded records of each run are safe.
pub(crate) fn plan_turn<S: Slot, R: Record>(
    internal: &[InternalArray<R>],
    external: &[ExternalArray<S, R>],
    places: &mut [u64],
    bench: &Bench<R>,
    below: Option<R>,
    room: u64,
    ahead: u32,
) -> Turn
    requires may { MayPlan internal.now external.now places.old }
    requires hints { AreHints R.record_of R.WIDTH S.shown external.now bench.now.hints }
    requires room { 0 < room }
    ensures places { length places.new ≡ length places.old }
    ensures plan { IsPlan R.Ord.cmp R.record_of R.WIDTH S.shown below internal.now external.now places.new room ahead result }
{
    record_laws::<R>();
    let next = next_block(external, bench);
    let edge = choose_edge(first_of(next), below);
    let safe = mark_runs(internal, external, &edge, places);
    match choose(external, next, edge, safe, room, ahead) {
        Some(turn) => turn,
        None => {
            let all = mark_runs(internal, external, &Edge::Whole, places);
            Turn::Take(all.min(room))
        }
    }
}
