//! The workers' pieces, handed out by halves.
ghost use Rattle.std.specs.Prelude.{length};
ghost use Rattle.std.specs.Thread.{IsSync, IsSend};
ghost use Rattle.ppq_merge.specs.Plan.{HavePieces, MadePieces};

use crate::seat::{Seat, merge_piece};
use crate::section::Section;
use ppq_outside::Gate;
use ppq_split::{Listing, Record};
use std::thread::{Threads, join_mut};

// Merges the pieces of some workers into `out`, one piece after the other, each worker on a thread of
// its own. Each worker enters the gate before its piece.
#[cycle(halves)]
pub(crate) fn merge_pieces<H: Threads + Sync, R: Record + Send, Q: Listing<R>, G: Gate>(
    section: &Section<'_, '_, H, Q, G>,
    seats: &mut [Seat<R>],
    out: &mut [R],
)
    requires { HavePieces (Q.lists section.now.team.now.runs.now) section.now.first section.now.base seats.old (length out.old) }
    ensures { MadePieces R.Ord.cmp (Q.lists section.now.team.now.runs.now) seats.old seats.new out.new }
{
    let Section { team, first, base } = *section;
    let count = seats.len();
    if count == 1 {
        team.gate.enter(first);
        merge_piece(team.runs, &mut seats[0], out);
        return;
    }
    let middle = count / 2;
    let end = seats[middle - 1].end;
    let (low_seats, high_seats) = seats.split_at_mut(middle);
    let (low_out, high_out) = out.split_at_mut((end - base) as usize);
    let high = Section {
        team,
        first: first + middle as u32,
        base: end,
    };
    merge_both(section, low_seats, low_out, &high, high_seats, high_out);
}

// Merges the pieces of two halves side by side.
#[cycle(halves)]
fn merge_both<H: Threads + Sync, R: Record + Send, Q: Listing<R>, G: Gate>(
    low: &Section<'_, '_, H, Q, G>,
    low_seats: &mut [Seat<R>],
    low_out: &mut [R],
    high: &Section<'_, '_, H, Q, G>,
    high_seats: &mut [Seat<R>],
    high_out: &mut [R],
)
    requires low { HavePieces (Q.lists low.now.team.now.runs.now) low.now.first low.now.base low_seats.old (length low_out.old) }
    requires high { HavePieces (Q.lists high.now.team.now.runs.now) high.now.first high.now.base high_seats.old (length high_out.old) }
    ensures low { MadePieces R.Ord.cmp (Q.lists low.now.team.now.runs.now) low_seats.old low_seats.new low_out.new }
    ensures high { MadePieces R.Ord.cmp (Q.lists high.now.team.now.runs.now) high_seats.old high_seats.new high_out.new }
{
    join_mut(
        low.team.rt,
        &mut ||
            requires { IsSync H.row × IsSync Q.row × IsSync G.row × IsSend R.row × HavePieces (Q.lists low.now.team.now.runs.now) low.now.first low.now.base low_seats.now (length low_out.now) }
            ensures { MadePieces R.Ord.cmp (Q.lists low.entry.now.team.now.runs.now) low_seats.entry.now low_seats.exit.now low_out.exit.now }
        { merge_pieces(low, low_seats, low_out) },
        &mut ||
            requires { IsSync H.row × IsSync Q.row × IsSync G.row × IsSend R.row × HavePieces (Q.lists high.now.team.now.runs.now) high.now.first high.now.base high_seats.now (length high_out.now) }
            ensures { MadePieces R.Ord.cmp (Q.lists high.entry.now.team.now.runs.now) high_seats.entry.now high_seats.exit.now high_out.exit.now }
        { merge_pieces(high, high_seats, high_out) },
    );
}
