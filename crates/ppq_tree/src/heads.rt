//! Where the items of all leaves come from.
ghost use Rattle.std.specs.Prelude.{◌≡◌, ◌<◌, List, Option, None, length, replicate, slice_index_or};

use ppq_record::Record;

/// The items that the leaves of a tree get together, as the first records of some runs.
///
/// A tree reads each of them once and keeps no list of them, so that it does not allocate.
/// Contracts see their list.
pub trait Heads<R: Record> {
    ghost heads: { Self → List (Option R) };

    /// How many leaves there are.
    fn leaves(&self) -> u32
        ensures { result ≡ length (heads self.now) };

    /// The item of a leaf. It is to cost constant time.
    fn head(&self, leaf: u32) -> Option<R>
        requires { leaf < length (heads self.now) }
        ensures { result ≡ slice_index_or (heads self.now) leaf None };
}

// So many leaves, none of which has an item.
#[derive(Drop)]
pub(crate) struct NoHeads {
    pub(crate) leaves: u32,
}

impl<R: Record> Heads<R> for NoHeads {
    ghost heads = { λ h. replicate h.leaves None };

    #[inline]
    fn leaves(&self) -> u32 {
        self.leaves
    }

    #[inline]
    fn head(&self, _leaf: u32) -> Option<R> {
        None
    }
}
