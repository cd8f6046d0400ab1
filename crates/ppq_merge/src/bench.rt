//! The bench of the workers, and merging by all of them.
ghost use Rattle.std.specs.Prelude.{◌≡◌, ◌≤◌, ◌<◌, ◌^◌, ℕ, All, length, get_or, replicate, IfOk};
ghost use Rattle.ppq_split.specs.ppq_record.Bag.{IsSameBag, front};
ghost use Rattle.ppq_split.specs.ppq_record.Runs.{all_of};
ghost use Rattle.ppq_split.specs.Cut.{AllAscend, AreWithin, IsCut, total};
ghost use Rattle.ppq_merge.specs.Merged.{IsMerged};
ghost use Rattle.ppq_merge.specs.Parts.{before, places_for};
ghost use Rattle.ppq_merge.specs.Plan.{HaveRecords};
ghost use Rattle.ppq_merge.specs.Seat.{AreSeats, IsSized};

use crate::alone::merge_alone;
use crate::crew::merge_cut;
use crate::plan::active_workers;
use crate::seat::{Seat, zeros};
use crate::team::Team;
use ppq_outside::Gate;
use ppq_split::{Listing, Memory, Record};
use std::alloc::Global;
use std::marker::Model;
use std::thread::Threads;

/// The trees and places of the workers, for a number of runs.
///
/// Contracts see `workers`, their number, and `places`, a place for each run, up to which the last merge took
/// the run's records.
#[derive(Drop)]
pub struct Bench<R: Record> {
    // A seat for each worker.
    seats: Vec<Seat<R>>,
    // Up to where the last merge took each run's records.
    places: Vec<u64>,
}

impl<R: Record> Model for Bench<R> {
    ghost use Rattle.std.specs.Prelude.{◌≡◌, ◌<◌, ◌^◌, All, length};
    ghost use Rattle.ppq_merge.specs.Bench.{Cuts};
    ghost use Rattle.ppq_merge.specs.Seat.{IsSized};

    ghost Value = { Cuts };

    ghost view = { λ b. record { places = b.places.items; workers = length b.seats.items } };

    ghost invariant = { λ b. (0 < length b.seats.items) × (length b.seats.items < 2 ^ 32) × (length b.places.items < 2 ^ 32) × All (IsSized (length b.places.items)) b.seats.items };
}

// Seats for so many workers.
fn seats_for<R: Record>(alloc: Global, workers: u32, runs: u32) -> Result<Vec<Seat<R>>, Memory>
    ensures length { IfOk result (λ seats. length seats.items ≡ workers) }
    ensures sized { IfOk result (λ seats. All (IsSized runs) seats.items) }
{
    let mut seats = Vec::with_capacity(alloc, workers as usize)?;
    for _worker in 0..workers {
        let seat = Seat::new(alloc, runs)?;
        seats.push(seat)?;
    }
    Ok(seats)
}

impl<R: Record> Bench<R> {
    /// A bench for so many workers and at most so many runs. It allocates a place for each run, and
    /// for each worker and run a leaf of a tree and two places, beside a hundred cells or so for each worker
    /// that keep what it writes apart; no other call allocates.
    pub fn new(alloc: Global, workers: u32, runs: u32) -> Result<Self, Memory>
        requires { 1 ≤ workers }
        ensures places { IfOk result (λ bench. bench.places ≡ replicate runs 0) }
        ensures workers { IfOk result (λ bench. bench.workers ≡ workers) }
    {
        let seats = seats_for(alloc, workers, runs)?;
        let places = zeros(alloc, runs as usize)?;
        Ok(Bench { seats, places })
    }

    /// For how many runs it was made.
    #[inline]
    pub fn runs(&self) -> u32
        ensures { result ≡ length self.now.places }
    {
        self.places.len() as u32
    }

    /// For how many workers it was made.
    #[inline]
    pub fn workers(&self) -> u32
        ensures { result ≡ self.now.workers }
    {
        self.seats.len() as u32
    }

    /// The place in a run up to which the last merge took its records, from 0: 0 before the first
    /// merge, and for a number at which that merge had no run.
    #[inline]
    pub fn cut(&self, run: u32) -> u64
        requires { run < length self.now.places }
        ensures { result ≡ get_or self.now.places run 0 }
    {
        self.places[run as usize]
    }
}

// Merges by as many workers as pays, and by one if the cuts are none of runs that ascend. `places`
// has a zero for each run.
fn merge_runs<H: Threads + Sync, R: Record + Send, Q: Listing<R>, G: Gate>(
    team: &Team<'_, H, Q, G>,
    seats: &mut [Seat<R>],
    leaves: usize,
    places: &mut [u64],
    out: &mut [R],
)
    requires seats { AreSeats leaves (Q.lists team.now.runs.now) seats.old }
    requires records { HaveRecords (Q.lists team.now.runs.now) (length out.old) }
    requires zeros { places.old ≡ replicate (length (Q.lists team.now.runs.now)) 0 }
    ensures sized { All (IsSized leaves) seats.new }
    ensures merged { IsMerged R.Ord.cmp (Q.lists team.now.runs.now) (length out.old) places.new out.new }
{
    let workers = seats.len() as u32;
    let active = active_workers(out.len() as u64, team.runs.runs(), workers);
    if active > 1 {
        let crew = &mut seats[..active as usize];
        if merge_cut(team, workers, crew, leaves, places, out) {
            return;
        }
    }
    merge_alone(team, workers, &mut seats[0], places, out);
}

// Merges by the workers of a bench, whose places other than those of the runs become 0.
fn merge_by_seats<H: Threads + Sync, R: Record + Send, Q: Listing<R>, G: Gate>(
    team: &Team<'_, H, Q, G>,
    seats: &mut [Seat<R>],
    places: &mut [u64],
    out: &mut [R],
)
    requires seats { AreSeats (length places.old) (Q.lists team.now.runs.now) seats.old }
    requires records { HaveRecords (Q.lists team.now.runs.now) (length out.old) }
    ensures sized { All (IsSized (length places.old)) seats.new }
    ensures rest { (run : ℕ) → length (Q.lists team.now.runs.now) ≤ run → get_or places.new run 0 ≡ 0 }
    ensures merged { IsMerged R.Ord.cmp (Q.lists team.now.runs.now) (length out.old) (places_for (Q.lists team.now.runs.now) places.new) out.new }
{
    let used = team.runs.runs() as usize;
    let leaves = places.len();
    places.fill(0);
    let part = &mut places[..used];
    merge_runs(team, seats, leaves, part, out);
}

/// Merges the `count` smallest records of the runs into `out`, in ascending order, by the workers of
/// the bench, each on a thread of its own. If the runs do not ascend, `out` holds some `count`
/// records of the runs. `Bench::cut` then tells how many records of each run were taken.
///
/// Each worker enters the gate with its number before its piece. The workers have pieces of equal
/// size, between the cuts at the ranks `j * count / workers`. A piece has at least 6,144 records, and 8
/// for each run: with fewer, cuts and threads would cost more than they save. So of few records fewer
/// workers have pieces, or worker 0 alone has; the others enter the gate all the same. `out` and the
/// places are the same for every number of workers.
///
/// It does not allocate. It takes a time of `count * log2(runs) / workers` matches and one cut for
/// each worker (see `ppq_split::cut_at`). A thread is started for each worker but one; for workers who
/// have no piece none is, if the gate has no bytes, as `OpenGate`.
pub fn merge_workers<H: Threads + Sync, R: Record + Send, Q: Listing<R>, G: Gate>(
    rt: &H,
    bench: &mut Bench<R>,
    runs: &Q,
    count: u64,
    out: &mut [R],
    gate: &G,
)
    requires out { length out.old ≡ count }
    requires count { count ≤ length (all_of (Q.lists runs.now)) }
    requires room { length (all_of (Q.lists runs.now)) < 2 ^ 64 }
    requires runs { length (Q.lists runs.now) ≤ length bench.old.places }
    ensures workers { bench.new.workers ≡ bench.old.workers }
    ensures size { length bench.new.places ≡ length bench.old.places }
    ensures within { AreWithin (places_for (Q.lists runs.now) bench.new.places) (Q.lists runs.now) }
    ensures adds_up { total (places_for (Q.lists runs.now) bench.new.places) ≡ count }
    ensures rest { (run : ℕ) → length (Q.lists runs.now) ≤ run → get_or bench.new.places run 0 ≡ 0 }
    ensures bag { IsSameBag out.new (before (places_for (Q.lists runs.now) bench.new.places) (Q.lists runs.now)) }
    ensures cut { AllAscend R.Ord.cmp (Q.lists runs.now) → IsCut R.Ord.cmp (Q.lists runs.now) count (places_for (Q.lists runs.now) bench.new.places) }
    ensures front { AllAscend R.Ord.cmp (Q.lists runs.now) → out.new ≡ front R.Ord.cmp (all_of (Q.lists runs.now)) count }
{
    let team = Team { rt, runs, gate };
    let Bench { seats, places } = bench;
    merge_by_seats(&team, seats.as_mut_slice(), places.as_mut_slice(), out);
}
