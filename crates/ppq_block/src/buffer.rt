//! The bytes of a block, seen as a list of records.
ghost use Rattle.std.specs.Prelude.{◌≡◌, ℕ, ◌+◌, ◌-◌, ◌*◌, ◌<◌, ◌≤◌, List, [], ◌∷◌, ◌++◌, length, slice_get, Some, IfOk};
ghost use Rattle.std.specs.Borrow.{Lends, Array, u8 as byte, sem};
ghost use Rattle.ppq_record.specs.Given.{records_from};
ghost use Rattle.ppq_block.specs.Block.{Block, IsSettled, holding, left_behind, padded, content};

use crate::bytes::{either, known_bytes, write_at, zero_from, zero_to};
use ppq_record::{Memory, Record, record_laws, take_at};
use std::alloc::Global;
use std::marker::{Model, PhantomData};

/// A list of at most so many records, in the bytes of a block. Contracts see its records and how many
/// it can hold; and from `bytes_mut` until the next `refill` or `clear` its bytes, and no records.
///
/// It is what lies in a `BlockBuf`, and what a `BufList` shows of one.
#[derive(Drop)]
pub struct Buffer<R: Record> {
    // as many bytes as `block` records have
    bytes: Vec<u8>,
    // how many records fit
    block: u32,
    // how many there are
    count: u32,
    // whether the bytes are those of the records, and then zeros
    settled: bool,
    of: PhantomData<R>,
}

impl<R: Record> Model for Buffer<R> {
    ghost use Rattle.ppq_block.specs.Block.{Block, block_code, seen, IsBuffer};

    ghost Value = { Block R };

    ghost coded = { block_code R.code };

    ghost view = { λ b. seen R.record_of R.WIDTH b.block b.count b.settled b.bytes.items };

    ghost invariant = { λ b. IsBuffer R.WIDTH b.block b.count b.settled b.bytes.items };
}

impl<R: Record> Buffer<R> {
    ghost use Rattle.ppq_block.specs.contracts.buffer.Buffer.{the_row};

    // An empty buffer for so many records.
    pub(crate) fn new(alloc: Global, block: u32) -> Result<Self, Memory>
        ensures { IfOk result (λ b. b ≡ holding block []) }
    {
        record_laws::<R>();
        let bytes = vec![in alloc; 0; block as usize * R::WIDTH]?;
        Ok(Buffer {
            bytes,
            block,
            count: 0,
            settled: true,
            of: PhantomData,
        })
    }

    /// How many records it holds.
    #[inline]
    pub fn len(&self) -> u32
        ensures len { result ≡ length self.now.items }
        ensures within { result ≤ self.now.block }
    {
        self.count
    }

    /// How many records it can hold.
    #[inline]
    pub fn block(&self) -> u32
        ensures { result ≡ self.now.block }
    {
        self.block
    }

    /// The record at a place. It costs one `take`.
    #[inline]
    pub fn at(&self, i: u32) -> R
        requires { i < length self.now.items }
        ensures record { slice_get self.now.items i ≡ Some result }
        ensures value { R.is_value result }
    {
        record_laws::<R>();
        take_at(self.bytes.as_slice(), i as usize)
    }

    // Adds a record after the others. It costs one `put` of it.
    #[inline]
    pub(crate) fn push(&mut self, r: R)
        requires settled { IsSettled self.old }
        requires room { length self.old.items < self.old.block }
        ensures { self.new ≡ holding self.old.block (self.old.items ++ r ∷ []) }
    {
        record_laws::<R>();
        r.known();
        let bytes = self.bytes.as_mut_slice();
        write_at(&r, bytes, self.count as usize * R::WIDTH);
        self.count += 1;
    }

    /// The bytes of its records and then zeros, as many as a block has. Taken back, they are its
    /// records.
    #[inline]
    pub fn bytes(&self) -> &[u8]
        requires { IsSettled self.now }
        ensures length { length result.now ≡ self.now.block * R.WIDTH }
        ensures bytes { result.now ≡ padded R.bytes_of R.WIDTH self.now.block self.now.items }
        ensures back { records_from R.record_of R.WIDTH (length self.now.items) result.now ≡ self.now.items }
    {
        record_laws::<R>();
        let bytes = self.bytes.as_slice();
        known_bytes(bytes);
        bytes
    }

    // Takes all records out, and makes the bytes zeros. It writes only over bytes that may be others.
    pub(crate) fn clear(&mut self)
        ensures { self.new ≡ holding self.old.block [] }
    {
        let written = self.count as usize * R::WIDTH;
        let used = either(self.settled, written, self.bytes.len());
        let bytes = self.bytes.as_mut_slice();
        zero_to(bytes, used);
        self.count = 0;
        self.settled = true;
    }

    // The bytes, to be read into. Nothing is said of the records until `refill` or `clear`.
    pub(crate) fn bytes_mut(&mut self) -> &mut [u8]
        ensures* handed { sem 𝓛 (Lends (the_row R.row R.Record.own R.Ord.own R.PartialEq R.PartialOrd.own) (Array byte 0) self.entry result (left_behind R.bytes_of R.WIDTH self.entry.now)) }
        ensures length { length result.now ≡ self.old.block * R.WIDTH }
    {
        record_laws::<R>();
        known_bytes(self.bytes.as_slice());
        self.count = 0;
        self.settled = false;
        self.bytes.as_mut_slice()
    }

    // Makes the first records of the bytes its records, and the bytes after them zeros.
    pub(crate) fn refill(&mut self, count: u32)
        requires { count ≤ self.old.block }
        ensures { self.new ≡ holding self.old.block (records_from R.record_of R.WIDTH count (content R.bytes_of R.WIDTH self.old)) }
    {
        record_laws::<R>();
        let used = count as usize * R::WIDTH;
        let bytes = self.bytes.as_mut_slice();
        known_bytes(bytes);
        zero_from(bytes, used);
        self.count = count;
        self.settled = true;
    }
}
