//! What the pool and the row have in common: the places in which their items lie.
//!
//! Both keep their items in the slots of one `atomic_table`. A slot is a [`Place`]: it has an item,
//! it is empty, or, as the last slot, it keeps the emptied list in which the items came. That list
//! has room for all of them, so that closing does not allocate. [`lay`] fills the places, [`unlay`]
//! gives the items back if a table could not be allocated, and [`items_from`] gives those that lie
//! in their places at the end.
//!
//! A seat's view counts shares, of which there are `2^32` in all. The words of `specs/Sums` add up
//! over all views, and the lemmas of `proofs/` say how such a sum changes with one view.
#![tactic(auto)]

mod closing;
mod laying;
mod place;

pub use closing::items_from;
pub use laying::{lay, unlay};
pub use place::Place;
