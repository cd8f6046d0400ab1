//! Which piece each worker merges.
ghost use Rattle.std.specs.Prelude.{◌≡◌, ◌*◌, ◌/◌, ◌<◌, ◌≤◌, length, All, true, replicate};
ghost use Rattle.ppq_merge.specs.Plan.{HaveRecords, StandsAt, GetsPiece, IsPlanned, Rises, workers_that_pay};
ghost use Rattle.ppq_merge.specs.Seat.{AreSeats, HasRoom, IsSized};

use crate::seat::{Seat, copy_front, copy_used, first_used};
use ppq_outside::{LEAST_PIECE, LEAST_PIECE_OF_A_RUN};
use ppq_split::{Listing, Record, cut_at};

// How many of the workers get a piece: so many that each piece pays for its cut and its thread, and
// one at least.
pub(crate) fn active_workers(count: u64, runs: u32, workers: u32) -> u32
    requires { 1 ≤ workers }
    ensures { result ≡ workers_that_pay count runs workers }
{
    let piece = LEAST_PIECE + LEAST_PIECE_OF_A_RUN * u64::from(runs);
    (count / piece).min(u64::from(workers)).max(1) as u32
}

// The rank at which a worker's piece begins, where so many workers share the records evenly.
#[inline]
fn rank_of(count: u64, worker: u32, workers: u32) -> u64
    requires { (worker ≤ workers) × (0 < workers) }
    ensures rank { result ≡ count * worker / workers }
    ensures within { result ≤ count }
{
    (u128::from(count) * u128::from(worker) / u128::from(workers)) as u64
}

// Whether no place falls.
fn all_rise(from: &[u64], to: &[u64]) -> bool
    requires { length from.now ≡ length to.now }
    ensures rises { result ≡ true → Rises from.now to.now }
    ensures stays { Rises from.now to.now → result ≡ true }
{
    for i in 0..from.len() {
        if from[i] > to[i] {
            return false;
        }
    }
    true
}

// Gives a worker the piece from the places so far up to the cut at a rank, to which the places move.
// Says whether no place falls.
fn plan_seat<R: Record, Q: Listing<R>>(
    runs: &Q,
    rank: u64,
    carry: &mut [u64],
    seat: &mut Seat<R>,
) -> bool
    requires places { length carry.old ≡ length (Q.lists runs.now) }
    requires records { HaveRecords (Q.lists runs.now) rank }
    requires room { HasRoom (Q.lists runs.now) seat.old }
    ensures piece { GetsPiece (Q.lists runs.now) carry.old carry.new rank seat.old seat.new }
    ensures cut { StandsAt R.Ord.cmp (Q.lists runs.now) rank carry.new }
    ensures rises { result ≡ true → Rises carry.old carry.new }
    ensures stays { Rises carry.old carry.new → result ≡ true }
{
    copy_used(carry, seat.from.as_mut_slice());
    cut_at(runs, rank, carry);
    copy_front(carry, seat.to.as_mut_slice());
    seat.end = rank;
    all_rise(first_used(seat.from.as_slice(), carry.len()), carry)
}

// Gives each worker the piece between two neighbouring cuts, and says whether no place falls, as it
// never does if the runs ascend.
pub(crate) fn plan_cuts<R: Record, Q: Listing<R>>(
    runs: &Q,
    count: u64,
    carry: &mut [u64],
    seats: &mut [Seat<R>],
    leaves: usize,
) -> bool
    requires seats { AreSeats leaves (Q.lists runs.now) seats.old }
    requires records { HaveRecords (Q.lists runs.now) count }
    requires zeros { carry.old ≡ replicate (length (Q.lists runs.now)) 0 }
    ensures sized { All (IsSized leaves) seats.new }
    ensures planned { IsPlanned R.Ord.cmp (Q.lists runs.now) carry.old seats.new carry.new count result }
{
    let workers = seats.len() as u32;
    let mut ok = true;
    for worker in 0..workers {
        let rank = rank_of(count, worker + 1, workers);
        let rises = plan_seat(runs, rank, carry, &mut seats[worker as usize]);
        ok = ok & rises;
    }
    ok
}
