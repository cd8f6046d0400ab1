//! Passes that are made of what a queue has.
ghost use Rattle.std.specs.Prelude.{◌≡◌, ◌≤◌, ◌<◌, ◌+◌, ◌/◌, [], length, All, vec_capacity};
ghost use Rattle.ppq_pass.specs.ppq_budget.Sizes.{heap_of, pool_of};
ghost use Rattle.ppq_pass.specs.ppq_array.Owner.{HasBlock};
ghost use Rattle.ppq_pass.specs.ppq_pool.Seats.{count_of};
ghost use Rattle.ppq_session.specs.Equipped.{MayEquip, CanEquip, Equipped, HasEquipped, IsNewPass};
ghost use Rattle.ppq_session.specs.Outfits.{IsOutfit};

use crate::outfit::Outfit;
use crate::share::FirstSeats;
use ppq_pass::{BufList, InsertionHeap, Pass, Record, Sizes, Slot};

// Moves a buffer from the front of a list to the end of another.
fn lend<R: Record>(from: &mut BufList<R>, to: &mut BufList<R>)
    requires some { 0 < length from.old }
    requires few { length to.old ≤ 1 }
    ensures count { length from.old ≡ length from.new + 1 }
    ensures moved { length to.new ≡ length to.old + 1 }
    ensures blocks { (block : _) → All (HasBlock block) from.old → All (HasBlock block) to.old → All (HasBlock block) from.new × All (HasBlock block) to.new }
{
    if let Some(buf) = from.pop_front() {
        to.push_back(buf);
    }
}

// A pass with the records of a heap. Two idle buffers and a share of each seat go to it.
fn new_pass<S: Slot, R: Record>(
    sizes: Sizes,
    heap: InsertionHeap<R>,
    outfit: Outfit<S, R>,
    idle: &mut BufList<R>,
    session: &mut FirstSeats<S, R>,
) -> Pass<S, R>
    requires heap { heap.cap ≡ heap_of sizes }
    requires outfit { IsOutfit (pool_of sizes / sizes.heap + 1) (sizes.blocks / sizes.heap + 1) (count_of session.old.pool_seat.pool) outfit }
    requires may { MayEquip S.shown R.WIDTH sizes 1 idle.old session.old }
    ensures pass { IsNewPass sizes heap.items session.old result }
    ensures equipped { Equipped sizes 1 idle.old idle.new session.old session.new }
{
    let Outfit { body, numbers } = outfit;
    let mut body = body;
    lend(idle, &mut body.lanes.idle);
    lend(idle, &mut body.lanes.idle);
    let row_seat = session.shared.row.split(&mut session.row_seat);
    let pool_seat = session.shared.pool.split(&mut session.pool_seat);
    Pass::new(sizes, heap, body, row_seat, pool_seat, numbers)
}

/// A pass for each heap, the last heap's first. Each gets an outfit, two idle buffers, and a share of each
/// seat.
pub fn equip<S: Slot, R: Record>(
    sizes: Sizes,
    heaps: &mut Vec<InsertionHeap<R>>,
    outfits: Vec<Outfit<S, R>>,
    idle: &mut BufList<R>,
    session: &mut FirstSeats<S, R>,
    passes: &mut Vec<Pass<S, R>>,
)
    requires { CanEquip S.shown R.WIDTH sizes heaps.old.items outfits.items idle.old session.old passes.old }
    ensures emptied { heaps.new.items ≡ [] }
    ensures capacity { vec_capacity heaps.new ≡ vec_capacity heaps.old }
    ensures made { HasEquipped sizes heaps.old.items idle.old idle.new session.old session.new passes.new.items }
{
    let mut outfits = outfits;
    'dealing: while let Some(heap) = heaps.pop() {
        if let Some(outfit) = outfits.pop() {
            passes.push_reserved(new_pass(sizes, heap, outfit, idle, session));
        }
    }
}
