//! The items that lie in their places when a table is closed.
ghost use Rattle.std.specs.Prelude.{◌≡◌, ◌+◌, ◌<◌, ◌≤◌, ℕ, [], ◌∷◌, ◌++◌, drop, take, vec_len, vec_capacity};
ghost use Rattle.std.specs.Slots.{slots_items, slots_filled, slots_len, IsFull};
ghost use Rattle.ppq_table.specs.Places.{items_in, HasRoom, Unread};

use crate::Place;
use atomic_table::Closed;
use std::alloc::Global;

// Empties the first places. What lies in them is let go.
fn skip<T: Drop>(closed: &mut Closed<Place<T>, Global>, from: usize, end: usize)
    requires unread { (slots_len closed.old.slots ≡ end + 1) × Unread (slots_filled closed.old.slots) 0 end }
    requires inside { from ≤ end }
    ensures same { (slots_len closed.new.slots ≡ slots_len closed.old.slots) × (slots_items closed.new.slots ≡ slots_items closed.old.slots) }
    ensures unread { Unread (slots_filled closed.new.slots) from end }
{
    for i in 0..from {
        drop(closed.take(i));
    }
}

// The item of a place, where it has one, goes after the others.
fn put_item<T: Drop>(room: &mut Vec<T>, place: Place<T>)
    requires { vec_len room.old < vec_capacity room.old }
    ensures items { room.new.items ≡ room.old.items ++ items_in (place ∷ []) }
    ensures count { vec_len room.new ≤ vec_len room.old + 1 }
    ensures capacity { vec_capacity room.new ≡ vec_capacity room.old }
{
    if let Place::Item(item) = place {
        room.push_reserved(item);
    }
}

// Empties the places from the first to the last. The items go into the list, in order.
fn keep<T: Drop>(closed: &mut Closed<Place<T>, Global>, room: &mut Vec<T>, from: usize, end: usize)
    requires unread { (slots_len closed.old.slots ≡ end + 1) × Unread (slots_filled closed.old.slots) from end }
    requires inside { from ≤ end }
    requires room { (room.old.items ≡ []) × (end ≤ vec_capacity room.old) }
    ensures same { slots_len closed.new.slots ≡ slots_len closed.old.slots }
    ensures unread { Unread (slots_filled closed.new.slots) end end }
    ensures items { room.new.items ≡ items_in (drop from (take end (slots_items closed.old.slots))) }
{
    for i in from..end {
        put_item(room, closed.take(i));
    }
}

/// The items that lie in their places from the place `from` on, in the order of their places.
///
/// They lie in the list that the last slot kept, so it does not allocate. What lies in places
/// before `from` is let go.
pub fn items_from<T: Drop>(mut closed: Closed<Place<T>, Global>, from: usize) -> Vec<T>
    requires full { IsFull closed.slots }
    requires room { (count : ℕ) × HasRoom count (slots_items closed.slots) }
    ensures { (count : ℕ) → HasRoom count (slots_items closed.slots) → result.items ≡ items_in (drop from (take count (slots_items closed.slots))) }
{
    let last = closed.slot_count() - 1;
    let Place::Room(mut room) = closed.take(last) else {
        unreachable!()
    };
    let first = from.min(last);
    skip(&mut closed, first, last);
    keep(&mut closed, &mut room, first, last);
    closed.free();
    room
}
