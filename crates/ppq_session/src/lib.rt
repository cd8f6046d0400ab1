//! Sessions: workers add records to a queue beside the others and with no lock, and the queue has them all
//! when the session ends.
//!
//! A bulk session is begun by [`bulk_begin`], which takes a queue apart. The free slots become a row and the
//! idle buffers a pool, which all passes share ([`Shared`]); each [`Pass`] gets a heap of the queue, two
//! buffers of its lanes, and a seat of row and pool. What stays is a [`Bulk`]: the runs that were there. The
//! records of a [`Maker`] are dealt to the passes in equal parts, and each worker makes those of its own
//! ([`deal`]); a [`RecordSlice`] is a maker of records that stand in a slice. Lines are pushed to the passes
//! that they name ([`push_lines`]). [`bulk_end`] puts all together again. All memory is taken by `bulk_begin`.
//!
//! In a limit session the owner takes the records below a limit out, the smallest first, while passes add
//! records that are not below it. [`limit_begin`] gives a [`Front`], which is the runs that the queue had and an
//! extract buffer that is refilled with records below the limit alone, and a [`LimitPass`] for each worker.
//! No pass has a record below the limit, so what the front gives is the smallest of all records there are
//! ([`passes_stand_back`]). [`run_both`] pushes lines while it answers [`Ask`]s. [`limit_end`] makes the
//! queue again, with what the front has left and what the passes accepted.
//!
//! Nothing is said of the order in which passes run: the contracts add up what each of them holds. In
//! whatever order their steps come, row and pool show one legal history of `ppq_core` together
//! ([`sessions_are_histories`]), in which each pass pushed what it accepted ([`accepted_are_pushed`]) and
//! stored what its runs in blocks have ([`runs_are_stored`]).
#![tactic(auto)]

mod answering;
mod ask;
mod begin;
mod begin_limit;
mod bringing;
mod brought;
mod bulk;
mod close;
mod closed;
mod dealing;
mod end;
mod end_limit;
mod equip;
mod fault;
mod front;
mod front_laws;
mod gather;
mod going;
mod laws;
mod limit_pass;
mod limit_room;
mod limit_session;
mod line;
mod lines;
mod maker;
mod moving;
mod outfit;
mod parts;
mod record_slice;
mod refill;
mod rejoining;
mod running;
mod session;
mod session_pass;
mod share;
mod slots;
mod stores;

pub use ask::Ask;
pub use begin::bulk_begin;
pub use begin_limit::limit_begin;
pub use bulk::Bulk;
pub use dealing::deal;
pub use end::bulk_end;
pub use end_limit::limit_end;
pub use fault::{BeginFault, SessionEnd};
pub use front::Front;
pub use front_laws::{high_records_stand_back, passes_stand_back};
pub use going::{are_going, limited_are_going};
pub use laws::{accepted_are_pushed, runs_are_stored, sessions_are_histories};
pub use limit_pass::LimitPass;
pub use limit_session::LimitSession;
pub use line::Line;
pub use lines::push_lines;
pub use maker::Maker;
pub use ppq_pass::{
    Full, Gate, Host, Library, OutsideFault, Pair, Pass, PoolBuf, Record, Shared, Sizes, Slot,
    StoreFault, StoreFault as QueueFault,
};
pub use ppq_queue::{OpenFault, Out, Queue};
pub use record_slice::RecordSlice;
pub use running::run_both;
pub use session::Session;
