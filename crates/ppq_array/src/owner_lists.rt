//! The free slots and idle buffers of one owner.
ghost use Rattle.std.specs.Prelude.{◌≡◌, ◌-◌, ◌*◌, ◌<◌, ◌^◌, [], length, All};
ghost use Rattle.ppq_array.specs.Owner.{new_owner, owner_home};
ghost use Rattle.ppq_array.specs.Supply.{IsSlot};

use crate::berth::Berth;
use crate::berth_list::BerthList;
use crate::supply::Supply;
use ppq_block::{BlockBuf, BufList, Record};
use ppq_outside::Slot;
use std::marker::Model;

/// The supply of one owner: its free slots and its idle buffers, in two lists. Slots and buffers leave at
/// the front and come back at the end.
///
/// Contracts see it as a `Stock`. It is sure of every slot and buffer in its lists. A draw from an empty
/// list raises `dry`, and a take from an empty list raises `scant`; that is the only reason for a `None`.
#[derive(Drop)]
pub struct OwnerLists<S: Slot, R: Record> {
    // the free slots
    slots: BerthList<S, R>,
    // how many slots there are, free or not
    all_slots: u32,
    // the idle buffers
    buffers: BufList<R>,
    // how many buffers there are, idle or not
    all_buffers: u32,
    // how many records a block has
    block: u32,
    // how many draws answered None
    dry: u64,
    // how many takes of a buffer answered None
    scant: u64,
    // how many buffers were not idle when a take last answered None
    room_when_scant: u32,
}

impl<S: Slot, R: Record> Model for OwnerLists<S, R> {
    ghost use Rattle.ppq_array.specs.Supply.{Stock};
    ghost use Rattle.ppq_array.specs.Owner.{owner_stock, IsOwner};

    ghost Value = { Stock };

    ghost view = { λ o. owner_stock S.shown o.block o.slots o.all_slots o.buffers o.all_buffers o.dry o.scant o.room_when_scant };

    ghost invariant = { λ o. IsOwner S.shown R.WIDTH o.block o.slots o.all_slots o.buffers o.all_buffers };
}

impl<S: Slot, R: Record> OwnerLists<S, R> {
    /// Empty lists for so many slots and buffers of `block` records each. The owner then gives it those
    /// that are free. It does not allocate.
    pub fn new(block: u32, slots: u32, buffers: u32) -> Self
        requires slots { slots < 2 ^ 32 - 1 }
        requires buffers { buffers < 2 ^ 32 - 1 }
        ensures { result ≡ new_owner block slots buffers }
    {
        OwnerLists {
            slots: BerthList::empty(),
            all_slots: slots,
            buffers: BufList::empty(),
            all_buffers: buffers,
            block,
            dry: 0,
            scant: 0,
            room_when_scant: 0,
        }
    }

    /// How many slots are free. An owner has no row to draw others from.
    #[inline]
    pub fn free_slots(&self) -> u32
        ensures free { result ≡ length self.now.kept }
        ensures no_row { self.now.drawn ≡ [] }
        ensures slots { All (IsSlot (self.now.block * R.WIDTH)) self.now.kept }
    {
        self.slots.len()
    }

    /// How many buffers are idle.
    #[inline]
    pub fn idle_buffers(&self) -> u32
        ensures { result ≡ self.now.sure_buffers }
    {
        self.buffers.len()
    }
}

impl<S: Slot, R: Record> Supply<S, R> for OwnerLists<S, R> {
    // how many slots there are, and how many buffers, free or not
    type Home = (u32, u32);

    ghost home = { λ o. owner_home o };

    ghost stock = { λ o. o };

    fn draw_slot(&mut self) -> Option<Berth<S, R>> {
        match self.slots.pop_front() {
            Some(berth) => Some(berth),
            None => {
                self.dry = self.dry.saturating_add(1);
                None
            }
        }
    }

    fn put_slot(&mut self, berth: &mut Option<Berth<S, R>>) {
        if let Some(berth) = berth.take() {
            self.slots.push_back(berth);
        }
    }

    fn take_buffer(&mut self) -> Option<BlockBuf<R>> {
        match self.buffers.pop_front() {
            Some(buf) => Some(buf),
            None => {
                self.scant = self.scant.saturating_add(1);
                self.room_when_scant = self.all_buffers;
                None
            }
        }
    }

    fn put_buffer(&mut self, buf: &mut Option<BlockBuf<R>>) {
        if let Some(buf) = buf.take() {
            self.buffers.push_back(buf);
        }
    }

    fn dry(&self) -> u64 {
        self.dry
    }

    fn scant(&self) -> u64 {
        self.scant
    }
}
