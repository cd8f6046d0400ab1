//! The insertion heap: a binary heap of a fixed number of records, the smallest first; and the insertion
//! heaps of several workers, the smallest of all of them first.
//!
//! `try_push` and `pop` cost about the binary logarithm of the number of records in comparisons, `min`
//! none. The memory is taken once, by `new`. A full heap is sorted in place, read as a slice and
//! emptied; an ascending list is a heap too.
//!
//! A heap that is filled to be sorted needs no order before: `try_append` adds a record behind the others,
//! without a comparison. The first push or pop after that puts what was appended into its place, and `min`
//! looks at it until then.
#![tactic(auto)]

mod heaps;
mod insertion_heap;
mod sift;

pub use heaps::Heaps;
pub use insertion_heap::InsertionHeap;
pub use ppq_tree::{Listing, Lists, Memory, MinTree, Pair, Record, record_laws, sort};
