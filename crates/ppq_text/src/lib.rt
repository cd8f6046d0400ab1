//! Text that is gathered before it is put, over any sink.
//!
//! A sink's call costs much beside a byte of it, so what is printed is gathered in a [`Room`] of some
//! kilobytes, and put where there is no room for more: on the heap (`OnHeap`), or in place, where no memory
//! is to be allocated (`InPlace`).
#![tactic(auto)]

mod gathered;
mod in_place;
mod on_heap;
mod room;

pub use gathered::Gathered;
pub use in_place::InPlace;
pub use on_heap::OnHeap;
pub use ppq_outside::{Failed, Host, Memory, Sink};
pub use room::Room;
