//! Slots and buffers that leave a supply and come back to it.
ghost use Rattle.std.specs.Prelude.{◌≡◌, ◌≤◌, ◌+◌, ◌-◌, ◌*◌, ◌++◌, [], length, reverse, All, vec_capacity};
ghost use Rattle.ppq_pass.specs.ppq_array.Owner.{HasSlot, slots_shown};
ghost use Rattle.ppq_queue.specs.Slots.{with_slots, with_pool};

use ppq_pass::{Berth, OwnerLists, PoolBuf, Record, Slot, Supply, free_slot, give_buffer};

/// Moves all free slots of a supply to the end of a list, in order.
pub fn take_slots<S: Slot, R: Record>(supply: &mut OwnerLists<S, R>, slots: &mut Vec<Berth<S, R>>)
    requires room { length slots.old.items + length supply.old.kept ≤ vec_capacity slots.old }
    requires sizes { All (HasSlot S.shown (supply.old.block * R.WIDTH)) slots.old.items }
    ensures shown { slots_shown S.shown slots.new.items ≡ slots_shown S.shown slots.old.items ++ supply.old.kept }
    ensures sizes { All (HasSlot S.shown (supply.old.block * R.WIDTH)) slots.new.items }
    ensures stock { supply.new ≡ with_slots supply.old [] (supply.old.slot_room + length supply.old.kept) }
{
    'taking: while supply.free_slots() > 0 {
        let berth = supply.draw_slot().unwrap();
        slots.push_reserved(berth);
    }
}

/// Puts slots back into a supply, in order.
pub fn put_slots<S: Slot, R: Record>(supply: &mut OwnerLists<S, R>, slots: Vec<Berth<S, R>>)
    requires room { length slots.items ≤ supply.old.slot_room }
    requires sizes { All (HasSlot S.shown (supply.old.block * R.WIDTH)) slots.items }
    ensures stock { supply.new ≡ with_slots supply.old (supply.old.kept ++ slots_shown S.shown slots.items) (supply.old.slot_room - length slots.items) }
{
    let mut slots = slots;
    slots.as_mut_slice().reverse();
    put_last(supply, &mut slots);
}

// Puts slots back into a supply, the last first.
fn put_last<S: Slot, R: Record>(supply: &mut OwnerLists<S, R>, slots: &mut Vec<Berth<S, R>>)
    requires room { length slots.old.items ≤ supply.old.slot_room }
    requires sizes { All (HasSlot S.shown (supply.old.block * R.WIDTH)) slots.old.items }
    ensures stock { supply.new ≡ with_slots supply.old (supply.old.kept ++ slots_shown S.shown (reverse slots.old.items)) (supply.old.slot_room - length slots.old.items) }
{
    'putting: while let Some(berth) = slots.pop() {
        free_slot(supply, berth);
    }
}

/// Moves all idle buffers of a supply to the end of a list.
pub fn take_buffers<S: Slot, R: Record>(
    supply: &mut OwnerLists<S, R>,
    buffers: &mut Vec<PoolBuf<R>>,
)
    requires room { length buffers.old.items + supply.old.sure_buffers ≤ vec_capacity buffers.old }
    requires shape { All (λ b. b.buf.block ≡ supply.old.block) buffers.old.items }
    ensures count { length buffers.new.items ≡ length buffers.old.items + supply.old.sure_buffers }
    ensures shape { All (λ b. b.buf.block ≡ supply.old.block) buffers.new.items }
    ensures stock { supply.new ≡ with_pool supply.old 0 (supply.old.buffer_room + supply.old.sure_buffers) }
{
    'taking: while supply.idle_buffers() > 0 {
        let buf = supply.take_buffer().unwrap();
        buffers.push_reserved(PoolBuf { buf });
    }
}

/// Puts buffers back into a supply.
pub fn put_buffers<S: Slot, R: Record>(supply: &mut OwnerLists<S, R>, buffers: Vec<PoolBuf<R>>)
    requires room { length buffers.items ≤ supply.old.buffer_room }
    requires shape { All (λ b. b.buf.block ≡ supply.old.block) buffers.items }
    ensures stock { supply.new ≡ with_pool supply.old (supply.old.sure_buffers + length buffers.items) (supply.old.buffer_room - length buffers.items) }
{
    let mut buffers = buffers;
    'putting: while let Some(one) = buffers.pop() {
        give_buffer(supply, one.buf);
    }
}
