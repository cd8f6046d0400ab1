//! Lists that are moved into others.
ghost use Rattle.std.specs.Prelude.{◌≡◌, ◌≤◌, ◌<◌, ◌+◌, ◌-◌, ◌*◌, ◌^◌, ◌++◌, length, reverse, All, vec_capacity};
ghost use Rattle.ppq_pass.specs.ppq_array.Owner.{HasSlot, slots_shown};
ghost use Rattle.ppq_queue.specs.Slots.{with_slots};

use ppq_pass::{BerthList, BufList, OwnerLists, Record, Slot, free_slot};

/// Moves all of a list to the end of another, the last first.
pub fn move_all<T: Drop>(from: Vec<T>, to: &mut Vec<T>)
    requires { length to.old.items + length from.items ≤ vec_capacity to.old }
    ensures items { to.new.items ≡ to.old.items ++ reverse from.items }
    ensures capacity { vec_capacity to.new ≡ vec_capacity to.old }
{
    let mut from = from;
    'moving: while let Some(one) = from.pop() {
        to.push_reserved(one);
    }
}

/// Moves all buffers of a list to the end of another, in order.
pub fn move_buffers<R: Record>(from: BufList<R>, to: &mut BufList<R>)
    requires { length to.old + length from < 2 ^ 32 - 1 }
    ensures { to.new ≡ to.old ++ from }
{
    let mut from = from;
    'moving: while let Some(buf) = from.pop_front() {
        to.push_back(buf);
    }
}

/// Puts all slots of a list into a supply, in order.
pub fn free_all<S: Slot, R: Record>(supply: &mut OwnerLists<S, R>, slots: BerthList<S, R>)
    requires room { length slots ≤ supply.old.slot_room }
    requires sizes { All (HasSlot S.shown (supply.old.block * R.WIDTH)) slots }
    ensures stock { supply.new ≡ with_slots supply.old (supply.old.kept ++ slots_shown S.shown slots) (supply.old.slot_room - length slots) }
{
    let mut slots = slots;
    'freeing: while let Some(berth) = slots.pop_front() {
        free_slot(supply, berth);
    }
}
