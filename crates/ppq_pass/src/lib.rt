//! A pass of a session: what one worker adds records to, beside the others and with no lock.
//!
//! All passes of a session share its free slots, as a row, and its buffers, as a pool ([`Shared`]). A
//! [`Pass`] has a heap, runs, and a seat of both. A record goes into the heap; a full heap is sorted and
//! stored as a run first. What a store draws from is the pass's supply ([`PassSupply`]): a slot comes from
//! the pass's stash, where it keeps those that it drew and that came back, or else from the row, and goes
//! back to the stash; a buffer comes from the pool and goes back to it. Each call is a few atomic steps,
//! waits for nobody and takes no memory.
//!
//! A supply borrows what the session shares, so between its calls a pass keeps its [`PassParts`] alone.
#![tactic(auto)]

mod full;
mod held;
mod home;
mod parts;
mod pass;
mod pass_supply;
mod shared;
mod store;

pub use full::Full;
pub use held::PassHeld;
pub use home::PassHome;
pub use parts::PassParts;
pub use pass::Pass;
pub use pass_supply::PassSupply;
pub use ppq_extract::{
    Berth, BerthList, BufList, ExternalArray, Extract, Gate, Host, InternalArray, Lanes, Library,
    OutsideFault, OwnerLists, Runs, Sizes, Slot, Sources, StoreFault, StoreFault as QueueFault,
    Supply, free_slot, give_buffer,
};
pub use ppq_heap::{Heaps, InsertionHeap, MinTree};
pub use ppq_pool::{
    Memory, Pair, Pool, PoolSeat, Record, interleaving_laws, record_laws, slot_laws,
    steps_are_events as buffer_steps_are_events,
};
pub use ppq_row::{Row, RowSeat, steps_are_events as slot_steps_are_events};
pub use ppq_spill::{PassBody, latch};
pub use shared::{PoolBuf, Shared};
