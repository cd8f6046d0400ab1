//! Runs of records, in buffers and in blocks of a device, and where slots and buffers come from.
//!
//! A run is a list of records that is read from its beginning. An [`InternalArray`] keeps one in buffers.
//! An [`ExternalArray`] keeps one in blocks: the first of them are loaded into buffers, the rest are
//! stored, each with its slot, its first record (its minimum) and its count. [`Runs`] are the runs of one
//! owner.
//!
//! A [`Supply`] gives slots and buffers and takes them back. [`OwnerLists`] is the supply of one owner.
//! A slot lies in a [`Berth`], a box that is made once and has room for the label of its block, so none
//! of the calls of runs and supplies allocates.
#![tactic(auto)]

mod berth;
mod berth_list;
mod external_array;
mod internal_array;
mod owner_lists;
mod retire;
mod runs;
mod store_fault;
mod supply;

pub use berth::{Berth, DeviceBlock};
pub use berth_list::BerthList;
pub use external_array::ExternalArray;
pub use internal_array::InternalArray;
pub use owner_lists::OwnerLists;
pub use ppq_block::{BlockBuf, BufList, Listing, Memory, Record, record_laws};
pub use ppq_outside::{
    Gate, Host, LEAST_GROUP, LEAST_RECORDS_BESIDE, LEAST_WORKERS_BESIDE, Library, MOST_GROUP,
    OpenGate, OutsideFault, Rack, Slot,
};
pub use runs::Runs;
pub use store_fault::StoreFault;
pub use supply::{Supply, free_slot, give_buffer};
