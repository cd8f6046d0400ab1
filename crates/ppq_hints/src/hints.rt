//! The next block by the minimums of all arrays.
ghost use Rattle.std.specs.Prelude.{◌≡◌, ◌↔◌, ◌<◌, ◌≤◌, None, Some, length, replicate, slice_set, IfOk, IfSome, IsNone};
ghost use Rattle.ppq_tree.specs.Tree.{HasNoItems, IsLeastLeaf};

use ppq_tree::{Memory, MinTree, Record};
use std::alloc::Global;
use std::marker::Model;

/// The minimum of the next block of each of some arrays, where the array has one.
///
/// Its memory is taken once, for `room` arrays; then `clear` can make it the hints of any number of arrays
/// up to that. Contracts see `items`, for each array the minimum of its first block that is not loaded,
/// or none, and `room`.
#[derive(Drop)]
pub struct Hints<R: Record> {
    // A leaf for each array, with the minimum of its next block.
    tree: MinTree<R>,
}

impl<R: Record> Model for Hints<R> {
    ghost use Rattle.ppq_tree.specs.Tree.{Leaves};

    ghost Value = { Leaves R };

    ghost view = { λ h. h.tree };
}

impl<R: Record> Hints<R> {
    /// Hints of so many arrays, none of which has a block, and with room for no more. It is the only call
    /// that allocates. `Err` only if an allocation failed.
    pub fn new(alloc: Global, arrays: u32) -> Result<Self, Memory>
        ensures items { IfOk result (λ hints. hints.items ≡ replicate arrays None) }
        ensures room { IfOk result (λ hints. hints.room ≡ arrays) }
    {
        let tree = MinTree::new(alloc, arrays)?;
        Ok(Hints { tree })
    }

    /// How many arrays there are.
    #[inline]
    pub fn arrays(&self) -> u32
        ensures { result ≡ length self.now.items }
    {
        self.tree.leaves()
    }

    /// Tells of an array that its next block has this minimum. It costs a match for each binary digit of
    /// the number of arrays.
    #[inline]
    pub fn add(&mut self, array: u32, minimum: R)
        requires { array < length self.old.items }
        ensures items { self.new.items ≡ slice_set self.old.items array (Some minimum) }
        ensures room { self.new.room ≡ self.old.room }
    {
        self.tree.put(array, Some(minimum));
    }

    /// Tells of an array, whose next block is loaded, what the minimum of the one after it is, or that it
    /// has none. It costs as much as `add`.
    #[inline]
    pub fn advance(&mut self, array: u32, next: Option<R>)
        requires { array < length self.old.items }
        ensures items { self.new.items ≡ slice_set self.old.items array next }
        ensures room { self.new.room ≡ self.old.room }
    {
        self.tree.put(array, next);
    }

    /// Makes them the hints of so many arrays, none of which has a block. It does not allocate and costs time
    /// in proportion to that number.
    pub fn clear(&mut self, arrays: u32)
        requires { arrays ≤ self.old.room }
        ensures items { self.new.items ≡ replicate arrays None }
        ensures room { self.new.room ≡ self.old.room }
    {
        self.tree.clear(arrays);
    }

    /// The array whose next block has the smallest minimum, with that minimum; the lowest array among equals.
    /// `None` if and only if no array has a block. It compares nothing.
    #[inline]
    pub fn least(&self) -> Option<(u32, R)>
        ensures some { IfSome result (λ next. IsLeastLeaf R.Ord.cmp self.now.items next.0 next.1) }
        ensures array { IfSome result (λ next. next.0 < length self.now.items) }
        ensures none { IsNone result ↔ HasNoItems self.now.items }
    {
        self.tree.winner()
    }
}
