//! What one worker needs.
ghost use Rattle.std.specs.Prelude.{◌≡◌, ◌+◌, ◌≤◌, ◌<◌, ◌^◌, length, take, replicate, IfOk};
ghost use Rattle.ppq_merge.specs.Parts.{IsMerge, LieBetween, places_for};
ghost use Rattle.ppq_merge.specs.Seat.{IsSized, HasRoom, KeepsSize, from_of, to_of, used};

use crate::merge::merge_into;
use ppq_split::{Listing, Memory, Record};
use ppq_tree::MinTree;
use std::alloc::Global;

// A worker's places and tree. Of the places and leaves as many are used as there are runs.
#[derive(Drop)]
pub(crate) struct Seat<R: Record> {
    // Places that are not used, and then where the worker's piece begins in each run.
    pub(crate) from: Vec<u64>,
    // Where it ends in each run.
    pub(crate) to: Vec<u64>,
    // The rank of that end: how many records stand in front of it in all runs.
    pub(crate) end: u64,
    // The tree with which the worker merges.
    pub(crate) tree: MinTree<R>,
}

// How many places stand unused in front of those where a worker's piece begins, and how many more
// there is room for at the end. A worker moves its own at each record: 16 places are 128 bytes, so
// no line of the cache that it writes, nor its neighbour, has what others read, as the runs or what
// is known of the other workers, wherever the allocator lays them. The tree does likewise.
const APART: usize = 16;

// So many zeros, with room after them that is not used.
pub(crate) fn zeros(alloc: Global, count: usize) -> Result<Vec<u64>, Memory>
    requires { count < 2 ^ 33 }
    ensures { IfOk result (λ places. places.items ≡ replicate count 0) }
{
    let mut places = Vec::with_capacity(alloc, count + APART)?;
    for _place in 0..count {
        places.push(0)?;
    }
    Ok(places)
}

impl<R: Record> Seat<R> {
    // A seat for so many runs.
    pub(crate) fn new(alloc: Global, runs: u32) -> Result<Self, Memory>
        ensures { IfOk result (λ seat. IsSized runs seat) }
    {
        let from = zeros(alloc, APART + runs as usize)?;
        let to = zeros(alloc, runs as usize)?;
        let tree = MinTree::new(alloc, runs)?;
        Ok(Seat {
            from,
            to,
            end: 0,
            tree,
        })
    }
}

// Copies places over the first of others.
pub(crate) fn copy_front(places: &[u64], into: &mut [u64])
    requires { length places.now ≤ length into.old }
    ensures { take (length places.now) into.new ≡ places.now }
{
    let part = &mut into[..places.len()];
    part.copy_from_slice(places);
}

// Copies places over the first of those that are used.
pub(crate) fn copy_used(places: &[u64], into: &mut [u64])
    requires { 16 + length places.now ≤ length into.old }
    ensures { take (length places.now) (used into.new) ≡ places.now }
{
    let (_front, cells) = into.split_at_mut(APART);
    copy_front(places, cells);
}

// The first of the places that are used, so many.
pub(crate) fn first_used(all: &[u64], count: usize) -> &[u64]
    requires { 16 + count ≤ length all.now }
    ensures { result.now ≡ take count (used all.now) }
{
    let (_front, cells) = all.split_at(APART);
    &cells[..count]
}

// Merges what lies between the first of some places, as many as there are runs.
fn merge_between<R: Record, Q: Listing<R>>(
    runs: &Q,
    from: &mut [u64],
    to: &[u64],
    tree: &mut MinTree<R>,
    out: &mut [R],
)
    requires from { length (Q.lists runs.now) ≤ length from.old }
    requires to { length (Q.lists runs.now) ≤ length to.now }
    requires leaves { length (Q.lists runs.now) ≤ tree.old.room }
    requires between { LieBetween (places_for (Q.lists runs.now) from.old) (places_for (Q.lists runs.now) to.now) (Q.lists runs.now) (length out.old) }
    ensures merge { IsMerge R.Ord.cmp (Q.lists runs.now) (places_for (Q.lists runs.now) from.old) (places_for (Q.lists runs.now) to.now) out.new }
    ensures room { tree.new.room ≡ tree.old.room }
{
    let count = runs.runs() as usize;
    let part = &mut from[..count];
    let ends = &to[..count];
    merge_into(runs, part, ends, tree, out);
}

// Merges what lies between the first of the places that are used and others.
fn merge_used<R: Record, Q: Listing<R>>(
    runs: &Q,
    from: &mut [u64],
    to: &[u64],
    tree: &mut MinTree<R>,
    out: &mut [R],
)
    requires from { 16 + length (Q.lists runs.now) ≤ length from.old }
    requires to { length (Q.lists runs.now) ≤ length to.now }
    requires leaves { length (Q.lists runs.now) ≤ tree.old.room }
    requires between { LieBetween (places_for (Q.lists runs.now) (used from.old)) (places_for (Q.lists runs.now) to.now) (Q.lists runs.now) (length out.old) }
    ensures merge { IsMerge R.Ord.cmp (Q.lists runs.now) (places_for (Q.lists runs.now) (used from.old)) (places_for (Q.lists runs.now) to.now) out.new }
    ensures room { tree.new.room ≡ tree.old.room }
{
    let (_front, places) = from.split_at_mut(APART);
    merge_between(runs, places, to, tree, out);
}

// Merges a worker's piece.
pub(crate) fn merge_piece<R: Record, Q: Listing<R>>(runs: &Q, seat: &mut Seat<R>, out: &mut [R])
    requires room { HasRoom (Q.lists runs.now) seat.old }
    requires between { LieBetween (from_of (Q.lists runs.now) seat.old) (to_of (Q.lists runs.now) seat.old) (Q.lists runs.now) (length out.old) }
    ensures merge { IsMerge R.Ord.cmp (Q.lists runs.now) (from_of (Q.lists runs.now) seat.old) (to_of (Q.lists runs.now) seat.old) out.new }
    ensures kept { KeepsSize seat.old seat.new }
{
    let Seat { from, to, tree, .. } = seat;
    merge_used(runs, from.as_mut_slice(), to.as_slice(), tree, out);
}
