//! A queue of buffers, linked through their boxes.
ghost use Rattle.std.specs.Prelude.{◌≡◌, ℕ, ◌+◌, ◌-◌, ◌^◌, ◌<◌, ◌↔◌, List, [], ◌∷◌, ◌++◌, length, slice_get, Some, IsTrue, IsNone, IfNone, IfSome};
ghost use Rattle.ppq_block.specs.Block.{all_items};

use crate::chain::Chain;
use crate::walk::{from_bottom, from_top};
use crate::{BlockBuf, Buffer};
use ppq_record::Record;
use std::marker::Model;

/// A queue of fewer than 2^32 buffers, seen as a list. None of its calls allocates, since each
/// buffer's box has room for the link.
///
/// It is two linked stacks: the first buffers in order, and the last ones the other way round. Where the
/// first stack runs empty, the other is turned onto it, so `push_back` and `pop_front` take constant time
/// on the whole.
#[derive(Drop)]
pub struct BufList<R: Record> {
    // the first buffers, the first of all on top
    front: Chain<Buffer<R>>,
    // those after them, the last on top
    back: Chain<Buffer<R>>,
    // how many there are
    len: u32,
}

impl<R: Record> Model for BufList<R> {
    ghost use Rattle.std.specs.Coded.{coded_list};
    ghost use Rattle.std.specs.Prelude.{List};
    ghost use Rattle.ppq_block.specs.Block.{Block, block_code};

    ghost Value = { List (Block R) };

    ghost coded = { coded_list (block_code R.code) };

    ghost use Rattle.ppq_block.specs.Queue.{queued, IsQueue};

    ghost view = { λ l. queued l.front l.back };

    ghost invariant = { λ l. IsQueue l.front l.back l.len };
}

impl<R: Record> BufList<R> {
    /// No buffers. It does not allocate.
    pub fn empty() -> Self
        ensures { result ≡ [] }
    {
        BufList {
            front: Chain::End,
            back: Chain::End,
            len: 0,
        }
    }

    /// How many buffers there are.
    #[inline]
    pub fn len(&self) -> u32
        ensures { result ≡ length self.now }
    {
        self.len
    }

    /// Whether there is no buffer.
    #[inline]
    pub fn is_empty(&self) -> bool
        ensures { IsTrue result ↔ (self.now ≡ []) }
    {
        self.front.is_end()
    }

    /// Adds a buffer after the others.
    pub fn push_back(&mut self, buf: BlockBuf<R>)
        requires { length self.old < 2 ^ 32 - 1 }
        ensures { self.new ≡ self.old ++ buf ∷ [] }
    {
        let BlockBuf { node } = buf;
        if self.front.is_end() {
            self.front.push(node);
        } else {
            self.back.push(node);
        }
        self.len += 1;
    }

    /// Takes the first buffer. None is returned if and only if there is none.
    pub fn pop_front(&mut self) -> Option<BlockBuf<R>>
        ensures none { IsNone result ↔ (self.old ≡ []) }
        ensures first { IfSome result (λ buf. self.old ≡ buf ∷ self.new) }
        ensures rest { IfNone result (self.new ≡ []) }
    {
        match self.front.pop() {
            None => None,
            Some(node) => {
                if self.front.is_end() {
                    self.back.pour(&mut self.front);
                }
                self.len -= 1;
                Some(BlockBuf { node })
            }
        }
    }

    /// What the buffer at a place shows. It walks there: the first costs constant time, and after
    /// `straighten` each costs its place.
    pub fn at(&self, i: u32) -> &Buffer<R>
        requires { i < length self.now }
        ensures { slice_get self.now i ≡ Some result.now }
    {
        match self.front.get(i) {
            Some(buffer) => buffer,
            None => self.back.get(self.len - 1 - i).unwrap(),
        }
    }

    /// The record at a place, counted over all buffers' records, one buffer after the other. It walks to
    /// its buffer: those of the first buffer cost constant time, and after `straighten` each costs the
    /// number of buffers before its own.
    #[inline]
    pub fn record(&self, i: u64) -> R
        requires { i < length (all_items self.now) }
        ensures record { slice_get (all_items self.now) i ≡ Some result }
        ensures value { R.is_value result }
    {
        match from_top(&self.front, i) {
            Ok(record) => record,
            Err(rest) => from_bottom(&self.back, self.len, rest),
        }
    }

    /// Turns the second stack below the first, so that walks go in order from now on. What is seen stays.
    /// It costs the number of buffers, or constant time where nothing was pushed since the last time.
    pub fn straighten(&mut self)
        ensures { self.new ≡ self.old }
    {
        if !self.back.is_end() {
            let mut first = Chain::End;
            self.front.pour(&mut first);
            self.back.pour(&mut self.front);
            first.pour(&mut self.front);
        }
    }
}
