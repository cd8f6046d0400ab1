//! Merging by one of the workers alone, which needs no cut.
ghost use Rattle.std.specs.Prelude.{◌≡◌, ◌+◌, ◌^◌, ◌<◌, ◌≤◌, length};
ghost use Rattle.std.specs.Thread.{IsSync, IsSend};
ghost use Rattle.ppq_split.specs.ppq_record.Runs.{all_of};
ghost use Rattle.ppq_split.specs.Edge.{ends};
ghost use Rattle.ppq_merge.specs.Merged.{IsMerged};
ghost use Rattle.ppq_merge.specs.Seat.{HasRoom, KeepsSize};

use crate::idle::{enter_all, enter_in_turn, has_no_bytes};
use crate::merge::merge_front;
use crate::seat::Seat;
use crate::team::Team;
use ppq_outside::Gate;
use ppq_split::{Listing, Record, record_laws};
use ppq_tree::MinTree;
use std::thread::{Threads, join_mut};

// Writes the end of each run.
fn write_ends<R: Record, Q: Listing<R>>(runs: &Q, to: &mut [u64])
    requires { length to.old ≡ length (Q.lists runs.now) }
    ensures { to.new ≡ ends (Q.lists runs.now) }
{
    for run in 0..runs.runs() {
        to[run as usize] = runs.len(run);
    }
}

// Merges the smallest records of all runs into `out`, as many as it has room for. The places move to
// the first records that are left; the first of the ends are written over.
fn merge_smallest<R: Record, Q: Listing<R>>(
    runs: &Q,
    places: &mut [u64],
    ends: &mut [u64],
    tree: &mut MinTree<R>,
    out: &mut [R],
)
    requires places { length places.old ≡ length (Q.lists runs.now) }
    requires ends { length (Q.lists runs.now) ≤ length ends.old }
    requires leaves { length (Q.lists runs.now) ≤ tree.old.room }
    requires count { length out.old ≤ length (all_of (Q.lists runs.now)) }
    ensures merged { IsMerged R.Ord.cmp (Q.lists runs.now) (length out.old) places.new out.new }
    ensures room { tree.new.room ≡ tree.old.room }
{
    record_laws::<R>();
    let part = &mut ends[..places.len()];
    places.fill(0);
    write_ends(runs, part);
    merge_front(runs, places, part, tree, out);
}

// Enters the gate as worker 0 and merges by its seat.
fn merge_by_first<R: Record, Q: Listing<R>, G: Gate>(
    runs: &Q,
    gate: &G,
    seat: &mut Seat<R>,
    places: &mut [u64],
    out: &mut [R],
)
    requires places { length places.old ≡ length (Q.lists runs.now) }
    requires room { HasRoom (Q.lists runs.now) seat.old }
    requires count { length out.old ≤ length (all_of (Q.lists runs.now)) }
    ensures merged { IsMerged R.Ord.cmp (Q.lists runs.now) (length out.old) places.new out.new }
    ensures kept { KeepsSize seat.old seat.new }
{
    gate.enter(0);
    let Seat { to, tree, .. } = seat;
    merge_smallest(runs, places, to.as_mut_slice(), tree, out);
}

// Merges the smallest records by worker 0, while the others enter the gate.
pub(crate) fn merge_alone<H: Threads + Sync, R: Record + Send, Q: Listing<R>, G: Gate>(
    team: &Team<'_, H, Q, G>,
    workers: u32,
    seat: &mut Seat<R>,
    places: &mut [u64],
    out: &mut [R],
)
    requires some { 1 ≤ workers }
    requires places { length places.old ≡ length (Q.lists team.now.runs.now) }
    requires room { HasRoom (Q.lists team.now.runs.now) seat.old }
    requires count { length out.old ≤ length (all_of (Q.lists team.now.runs.now)) }
    ensures merged { IsMerged R.Ord.cmp (Q.lists team.now.runs.now) (length out.old) places.new out.new }
    ensures kept { KeepsSize seat.old seat.new }
{
    let Team { rt, runs, gate } = *team;
    let idle = workers - 1;
    if idle == 0 || has_no_bytes(gate) {
        enter_in_turn(gate, 1, idle);
        merge_by_first(runs, gate, seat, places, out);
        return;
    }
    join_mut(
        rt,
        &mut ||
            requires { IsSync Q.row × IsSync G.row × IsSend R.row × (length places.now ≡ length (Q.lists runs.now)) × HasRoom (Q.lists runs.now) seat.now × (length out.now ≤ length (all_of (Q.lists runs.now))) }
            ensures { IsMerged R.Ord.cmp (Q.lists runs.entry.now) (length out.entry.now) places.exit.now out.exit.now × KeepsSize seat.entry.now seat.exit.now }
        { merge_by_first(runs, gate, seat, places, out) },
        &mut ||
            requires { IsSync H.row × IsSync G.row × (1 + idle < 2 ^ 32) }
        { enter_all(rt, gate, 1, idle) },
    );
}
