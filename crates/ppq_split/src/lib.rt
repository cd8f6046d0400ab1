//! Cuts of several sorted runs at a rank.
//!
//! The cut of rank `r` parts sorted runs into their `r` smallest records and the rest, so that
//! several workers can merge pieces of the runs at the same time. It is a multiway selection after
//! Varman, Scheufler, Iyer and Ricard (Merging multiple lists on hierarchical-memory
//! multiprocessors, 1991), with random pivots: a record is chosen, its place is found in every run,
//! and the cut that it makes becomes the lower or the upper bound of the wanted one.
#![tactic(auto)]

mod bounds;
mod cut;
mod edge;
mod mark;
mod places;
mod search;

pub use cut::{cut_at, one_cut};
pub use places::size_of;
pub use ppq_record::{Listing, Memory, Record, record_laws};
