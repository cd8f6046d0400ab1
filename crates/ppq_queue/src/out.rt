//! The list in which a bulk pop returns its records.
ghost use Rattle.std.specs.Prelude.{◌≡◌, ◌<◌, ◌≤◌, ◌↔◌, ◌∷◌, ◌++◌, [], length, IfOk, IsTrue};
ghost use Rattle.ppq_extract.specs.ppq_budget.Sizes.{batch_of};
ghost use Rattle.ppq_queue.specs.Out.{listed};

use ppq_extract::Sizes;
use ppq_heap::{Memory, Record};
use std::alloc::Global;
use std::marker::Model;

/// A list of at most a block of records for each worker: what a bulk pop took, in ascending order.
/// Contracts see the records, and how many there is room for.
#[derive(Drop)]
pub struct Out<R: Record> {
    // What was taken; the vector has room for all that may be taken from the beginning.
    records: Vec<R>,
    // How many records there may be.
    room: u32,
}

impl<R: Record> Model for Out<R> {
    ghost use Rattle.std.specs.Prelude.{◌≤◌, ◌<◌, ◌^◌, vec_len, vec_capacity};
    ghost use Rattle.ppq_queue.specs.Out.{Listed, listed};

    ghost Value = { Listed R };

    ghost view = { λ o. listed o.records.items o.room };

    ghost invariant = { λ o. (vec_len o.records ≤ o.room) × (o.room ≤ vec_capacity o.records) × (o.room < 2 ^ 32) };
}

impl<R: Record> Out<R> {
    /// An empty list for a queue of these sizes: with room for a block of records for each worker, the only
    /// call that takes memory. `Err` only for want of memory.
    pub fn new(alloc: Global, sizes: &Sizes) -> Result<Self, Memory>
        ensures { IfOk result (λ out. out ≡ listed [] (batch_of sizes.now)) }
    {
        let room = sizes.batch();
        let records = Vec::with_capacity(alloc, room as usize)?;
        Ok(Out { records, room })
    }

    /// The records that the last bulk pop took, in ascending order.
    #[inline]
    pub fn as_slice(&self) -> &[R]
        ensures { result.now ≡ self.now.items }
    {
        self.records.as_slice()
    }

    /// How many records there are.
    #[inline]
    pub fn len(&self) -> u32
        ensures value { result ≡ length self.now.items }
        ensures within { result ≤ self.now.room }
    {
        self.records.len() as u32
    }

    /// Whether there is no record.
    #[inline]
    pub fn is_empty(&self) -> bool
        ensures { IsTrue result ↔ (self.now.items ≡ []) }
    {
        self.records.is_empty()
    }

    /// How many records there may be.
    #[inline]
    pub fn room(&self) -> u32
        ensures { result ≡ self.now.room }
    {
        self.room
    }

    // Takes all records out; the room stays.
    #[inline]
    pub(crate) fn clear(&mut self)
        ensures { self.new ≡ listed [] self.old.room }
    {
        self.records.clear();
    }

    // Adds a record at the end.
    #[inline]
    pub(crate) fn push(&mut self, r: R)
        requires { length self.old.items < self.old.room }
        ensures { self.new ≡ listed (self.old.items ++ r ∷ []) self.old.room }
    {
        self.records.push_reserved(r);
    }
}
