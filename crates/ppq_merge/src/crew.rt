//! Merging by the workers who have pieces.
ghost use Rattle.std.specs.Prelude.{◌≡◌, ◌+◌, ◌^◌, ◌<◌, ◌≤◌, length, All, true, replicate};
ghost use Rattle.std.specs.Thread.{IsSync, IsSend};
ghost use Rattle.ppq_split.specs.Cut.{AllAscend};
ghost use Rattle.ppq_merge.specs.Merged.{IsMerged};
ghost use Rattle.ppq_merge.specs.Plan.{HaveRecords, HavePieces, MadePieces};
ghost use Rattle.ppq_merge.specs.Seat.{AreSeats, IsSized};

use crate::halves::merge_pieces;
use crate::idle::{enter_all, enter_in_turn, has_no_bytes};
use crate::plan::plan_cuts;
use crate::seat::Seat;
use crate::section::Section;
use crate::team::Team;
use ppq_outside::Gate;
use ppq_split::{Listing, Record, record_laws};
use std::thread::{Threads, join_mut};

// Merges the pieces of some workers while those after them, who have none, enter the gate.
fn merge_beside_idle<H: Threads + Sync, R: Record + Send, Q: Listing<R>, G: Gate>(
    section: &Section<'_, '_, H, Q, G>,
    workers: u32,
    seats: &mut [Seat<R>],
    out: &mut [R],
)
    requires workers { section.now.first + length seats.old ≤ workers }
    requires pieces { HavePieces (Q.lists section.now.team.now.runs.now) section.now.first section.now.base seats.old (length out.old) }
    ensures { MadePieces R.Ord.cmp (Q.lists section.now.team.now.runs.now) seats.old seats.new out.new }
{
    let top = section.first + seats.len() as u32;
    let Team { rt, gate, .. } = *section.team;
    let idle = workers - top;
    if idle == 0 || has_no_bytes(gate) {
        enter_in_turn(gate, top, idle);
        merge_pieces(section, seats, out);
        return;
    }
    join_mut(
        rt,
        &mut ||
            requires { IsSync H.row × IsSync Q.row × IsSync G.row × IsSend R.row × HavePieces (Q.lists section.now.team.now.runs.now) section.now.first section.now.base seats.now (length out.now) }
            ensures { MadePieces R.Ord.cmp (Q.lists section.entry.now.team.now.runs.now) seats.entry.now seats.exit.now out.exit.now }
        { merge_pieces(section, seats, out) },
        &mut ||
            requires { IsSync H.row × IsSync G.row × (top + idle < 2 ^ 32) }
        { enter_all(rt, gate, top, idle) },
    );
}

// Cuts the runs into as many pieces as there are seats, and merges them; says whether it did. It does
// not if a place falls from one cut to the next, which it never does if the runs ascend.
pub(crate) fn merge_cut<H: Threads + Sync, R: Record + Send, Q: Listing<R>, G: Gate>(
    team: &Team<'_, H, Q, G>,
    workers: u32,
    seats: &mut [Seat<R>],
    leaves: usize,
    carry: &mut [u64],
    out: &mut [R],
) -> bool
    requires workers { length seats.old ≤ workers }
    requires seats { AreSeats leaves (Q.lists team.now.runs.now) seats.old }
    requires records { HaveRecords (Q.lists team.now.runs.now) (length out.old) }
    requires zeros { carry.old ≡ replicate (length (Q.lists team.now.runs.now)) 0 }
    ensures sized { All (IsSized leaves) seats.new }
    ensures merged { result ≡ true → IsMerged R.Ord.cmp (Q.lists team.now.runs.now) (length out.old) carry.new out.new }
    ensures rising { AllAscend R.Ord.cmp (Q.lists team.now.runs.now) → result ≡ true }
{
    record_laws::<R>();
    if !plan_cuts(team.runs, out.len() as u64, carry, seats, leaves) {
        return false;
    }
    let section = Section {
        team: &*team,
        first: 0,
        base: 0,
    };
    merge_beside_idle(&section, workers, seats, out);
    true
}
