//! A buffer of a block that can stand in a queue.
ghost use Rattle.std.specs.Prelude.{◌≡◌, ℕ, ◌*◌, ◌<◌, ◌≤◌, [], ◌∷◌, ◌++◌, length, slice_get, Some, IfOk};
ghost use Rattle.std.specs.Borrow.{Lends, Array, u8 as byte, sem};
ghost use Rattle.ppq_record.specs.Given.{records_from};
ghost use Rattle.ppq_block.specs.Block.{IsSettled, holding, left_behind, padded, content};

use crate::{Buffer, Chain, Node};
use ppq_record::{Memory, Record};
use std::alloc::Global;
use std::marker::Model;

/// A buffer for the records of a block: a list of at most so many records, over as many bytes. Contracts
/// see its records and how many it can hold; and from `bytes_mut` until the next `refill` or `clear` its
/// bytes, and no records.
///
/// It lies in a box that has room for the link to a next one, so that a `BufList` does not
/// allocate.
#[derive(Drop)]
pub struct BlockBuf<R: Record> {
    pub(crate) node: Box<Node<Buffer<R>>>,
}

impl<R: Record> Model for BlockBuf<R> {
    ghost use Rattle.ppq_block.specs.Block.{Block, block_code};

    ghost Value = { Block R };

    ghost coded = { block_code R.code };

    ghost use Rattle.std.specs.Prelude.{◌≡◌, []};
    ghost use Rattle.ppq_block.specs.Chain.{chain_items};

    ghost view = { λ b. b.node.value.item };

    ghost invariant = { λ b. chain_items b.node.value.next ≡ [] };
}

impl<R: Record> BlockBuf<R> {
    ghost use Rattle.ppq_block.specs.contracts.block_buf.BlockBuf.{the_row};

    /// An empty buffer for so many records: `block * WIDTH` bytes, all zeros, and a box.
    pub fn new(alloc: Global, block: u32) -> Result<Self, Memory>
        ensures { IfOk result (λ b. b ≡ holding block []) }
    {
        let item = Buffer::new(alloc, block)?;
        let next = Chain::End;
        let node = Box::new(alloc, Node { item, next })?;
        Ok(BlockBuf { node })
    }

    /// How many records it holds.
    #[inline]
    pub fn len(&self) -> u32
        ensures len { result ≡ length self.now.items }
        ensures within { result ≤ self.now.block }
    {
        self.node.item.len()
    }

    /// How many records it can hold.
    #[inline]
    pub fn block(&self) -> u32
        ensures { result ≡ self.now.block }
    {
        self.node.item.block()
    }

    /// The record at a place. It costs one `take`.
    #[inline]
    pub fn at(&self, i: u32) -> R
        requires { i < length self.now.items }
        ensures record { slice_get self.now.items i ≡ Some result }
        ensures value { R.is_value result }
    {
        self.node.item.at(i)
    }

    /// Adds a record after the others. It costs one `put` of it.
    #[inline]
    pub fn push(&mut self, r: R)
        requires settled { IsSettled self.old }
        requires room { length self.old.items < self.old.block }
        ensures { self.new ≡ holding self.old.block (self.old.items ++ r ∷ []) }
    {
        self.node.item.push(r);
    }

    /// The bytes of its records and then zeros, `block * WIDTH` in all: what a block on a device is to
    /// hold. Taken back, they are its records.
    #[inline]
    pub fn bytes(&self) -> &[u8]
        requires { IsSettled self.now }
        ensures length { length result.now ≡ self.now.block * R.WIDTH }
        ensures bytes { result.now ≡ padded R.bytes_of R.WIDTH self.now.block self.now.items }
        ensures back { records_from R.record_of R.WIDTH (length self.now.items) result.now ≡ self.now.items }
    {
        self.node.item.bytes()
    }

    /// Takes all records out, and makes the bytes zeros. It costs a write over the bytes of the records.
    pub fn clear(&mut self)
        ensures { self.new ≡ holding self.old.block [] }
    {
        self.node.item.clear();
    }

    /// The `block * WIDTH` bytes, to be read into. From here until the next `refill` or `clear` nothing
    /// is said of the records.
    pub fn bytes_mut(&mut self) -> &mut [u8]
        ensures* handed { sem 𝓛 (Lends (the_row R.row R.Record.own R.Ord.own R.PartialEq R.PartialOrd.own) (Array byte 0) self.entry result (left_behind R.bytes_of R.WIDTH self.entry.now)) }
        ensures length { length result.now ≡ self.old.block * R.WIDTH }
    {
        let item = &mut self.node.item;
        item.bytes_mut()
    }

    /// Makes the first `count` records that its bytes stand for its records, and the bytes after them
    /// zeros. It reads no record, and costs a write over those bytes.
    pub fn refill(&mut self, count: u32)
        requires { count ≤ self.old.block }
        ensures { self.new ≡ holding self.old.block (records_from R.record_of R.WIDTH count (content R.bytes_of R.WIDTH self.old)) }
    {
        self.node.item.refill(count);
    }

    /// Makes it hold what another buffer holds: the bytes of that one are read into it and taken back. So
    /// a block that is written and read again is the same list.
    pub fn copy_from(&mut self, other: &BlockBuf<R>)
        requires settled { IsSettled other.now }
        requires block { other.now.block ≡ self.old.block }
        ensures { self.new ≡ other.now }
    {
        let bytes = other.bytes();
        let into = self.bytes_mut();
        into.copy_from_slice(bytes);
        self.refill(other.len());
    }
}
