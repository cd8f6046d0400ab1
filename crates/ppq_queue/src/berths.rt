//! Slots that go into boxes when a queue is opened, and out of them when it is closed.
ghost use Rattle.std.specs.Prelude.{◌≡◌, ◌≤◌, ◌<◌, ◌+◌, ◌-◌, ◌*◌, ◌∷◌, ◌++◌, [], length, map, reverse, All, OnOk, OnErr, IfErr, vec_capacity};
ghost use Rattle.ppq_extract.specs.ppq_array.Owner.{slots_shown};
ghost use Rattle.ppq_extract.specs.ppq_array.Holdings.{external_slots};
ghost use Rattle.ppq_extract.specs.ppq_array.Supply.{IsSlot};
ghost use Rattle.ppq_extract.specs.ppq_lane.declared.job.Job.{Job};
ghost use Rattle.ppq_spill.specs.Body.{job_slots, body_slots};
ghost use Rattle.ppq_queue.specs.Slots.{SameSums, with_slots};

use ppq_extract::{
    Berth, BlockBuf, ExternalArray, Job, OwnerLists, Slot, Supply, free_slot, give_buffer,
};
use ppq_heap::{Memory, Record};
use ppq_spill::PassBody;
use std::alloc::Global;

// Gives a supply so many empty buffers of its block size.
pub fn make_buffers<S: Slot, R: Record>(
    alloc: Global,
    supply: &mut OwnerLists<S, R>,
    block: u32,
    count: u32,
) -> Result<(), Memory>
    requires block { block ≡ supply.old.block }
    requires room { count ≤ supply.old.buffer_room }
    ensures stock { supply.new ≡ record supply.old { sure_buffers = supply.new.sure_buffers; buffer_room = supply.new.buffer_room } }
    ensures sum { supply.new.sure_buffers + supply.new.buffer_room ≡ supply.old.sure_buffers + supply.old.buffer_room }
    ensures given { OnOk result (supply.new.buffer_room + count ≡ supply.old.buffer_room) }
{
    for _made in 0..count {
        give_buffer(supply, BlockBuf::new(alloc, block)?);
    }
    Ok(())
}

// Puts each slot into a box, and gives it to a supply that has none, in their order. Where memory is
// wanting, the list has all slots again as they were, in some order.
pub fn berth_slots<S: Slot, R: Record>(
    alloc: Global,
    slots: &mut Vec<S>,
    supply: &mut OwnerLists<S, R>,
) -> Result<(), Memory>
    requires none { supply.old.kept ≡ [] }
    requires slots { All (λ s. IsSlot (supply.old.block * R.WIDTH) (S.shown s)) slots.old.items }
    requires room { length slots.old.items ≤ supply.old.slot_room }
    ensures stock { OnOk result (supply.new ≡ with_slots supply.old (map S.shown slots.old.items) (supply.old.slot_room - length slots.old.items)) }
    ensures emptied { OnOk result (slots.new.items ≡ []) }
    ensures back { OnErr result (SameSums (map S.shown slots.old.items) (map S.shown slots.new.items)) }
    ensures capacity { vec_capacity slots.new ≡ vec_capacity slots.old }
{
    slots.as_mut_slice().reverse();
    let Err(slot) = berth_last(alloc, slots, supply) else {
        return Ok(());
    };
    slots.push_reserved(slot);
    take_kept(supply, slots);
    Err(Memory)
}

// Puts the slots into boxes, the last first. `Err` hands a slot back for which memory was wanting.
fn berth_last<S: Slot, R: Record>(
    alloc: Global,
    slots: &mut Vec<S>,
    supply: &mut OwnerLists<S, R>,
) -> Result<(), S>
    requires none { supply.old.kept ≡ [] }
    requires slots { All (λ s. IsSlot (supply.old.block * R.WIDTH) (S.shown s)) slots.old.items }
    requires room { length slots.old.items ≤ supply.old.slot_room }
    ensures all { OnOk result (supply.new ≡ with_slots supply.old (map S.shown (reverse slots.old.items)) (supply.old.slot_room - length slots.old.items)) }
    ensures emptied { OnOk result (slots.new.items ≡ []) }
    ensures part { IfErr result (λ slot. map S.shown (reverse slots.old.items) ≡ supply.new.kept ++ (S.shown slot ∷ map S.shown (reverse slots.new.items))) }
    ensures capacity { vec_capacity slots.new ≡ vec_capacity slots.old }
{
    while let Some(slot) = slots.pop() {
        match Berth::new(alloc, slot) {
            Ok(berth) => free_slot(supply, berth),
            Err((slot, _)) => return Err(slot),
        }
    }
    Ok(())
}

// Takes the free slots out of a supply and of their boxes, in order.
pub fn take_kept<S: Slot, R: Record>(supply: &mut OwnerLists<S, R>, slots: &mut Vec<S>)
    requires { length slots.old.items + length supply.old.kept ≤ vec_capacity slots.old }
    ensures slots { map S.shown slots.new.items ≡ map S.shown slots.old.items ++ supply.old.kept }
    ensures capacity { vec_capacity slots.new ≡ vec_capacity slots.old }
{
    while supply.free_slots() > 0 {
        let berth = supply.draw_slot().unwrap();
        slots.push_reserved(berth.into_slot());
    }
}

// Takes the slots of stored blocks out of runs.
pub fn take_stored<S: Slot, R: Record>(arrays: &mut Vec<ExternalArray<S, R>>, slots: &mut Vec<S>)
    requires { length slots.old.items + length (external_slots S.shown arrays.old.items) ≤ vec_capacity slots.old }
    ensures slots { SameSums (map S.shown slots.old.items ++ external_slots S.shown arrays.old.items) (map S.shown slots.new.items) }
    ensures count { length slots.new.items ≡ length slots.old.items + length (external_slots S.shown arrays.old.items) }
    ensures capacity { vec_capacity slots.new ≡ vec_capacity slots.old }
{
    while let Some(array) = arrays.pop() {
        give_up_all(array, slots);
    }
}

// Takes the slots of stored blocks out of a run.
fn give_up_all<S: Slot, R: Record>(array: ExternalArray<S, R>, slots: &mut Vec<S>)
    requires { length slots.old.items + length array.stored ≤ vec_capacity slots.old }
    ensures slots { SameSums (map S.shown slots.old.items ++ slots_shown S.shown array.stored) (map S.shown slots.new.items) }
    ensures count { length slots.new.items ≡ length slots.old.items + length array.stored }
    ensures capacity { vec_capacity slots.new ≡ vec_capacity slots.old }
{
    let mut array = array;
    while let Some(berth) = array.give_up() {
        slots.push_reserved(berth.into_slot());
    }
}

// Takes the slots out of jobs.
pub fn take_jobs<S: Slot, R: Record>(jobs: &mut Vec<Job<Berth<S, R>, R>>, slots: &mut Vec<S>)
    requires { length slots.old.items + length jobs.old.items ≤ vec_capacity slots.old }
    ensures slots { SameSums (map S.shown slots.old.items ++ job_slots S.shown jobs.old.items) (map S.shown slots.new.items) }
    ensures count { length slots.new.items ≡ length slots.old.items + length jobs.old.items }
    ensures capacity { vec_capacity slots.new ≡ vec_capacity slots.old }
{
    while let Some(job) = jobs.pop() {
        let Job { slot, .. } = job;
        slots.push_reserved(slot.into_slot());
    }
}

// Takes all slots out of a body and its supply, each once.
pub fn give_back<S: Slot, R: Record>(
    body: PassBody<S, R>,
    supply: OwnerLists<S, R>,
    slots: Vec<S>,
) -> Vec<S>
    requires empty { slots.items ≡ [] }
    requires room { length (body_slots S.shown body ++ supply.kept) ≤ vec_capacity slots }
    ensures { SameSums (body_slots S.shown body ++ supply.kept) (map S.shown result.items) }
{
    let mut body = body;
    let mut supply = supply;
    let mut slots = slots;
    take_stored(&mut body.runs.external, &mut slots);
    take_jobs(&mut body.lanes.jobs, &mut slots);
    take_kept(&mut supply, &mut slots);
    slots
}
