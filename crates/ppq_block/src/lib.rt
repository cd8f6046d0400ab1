//! Buffers of a block each, and queues of them.
//!
//! A buffer is a list of records over the bytes of a block. It lies in a box that has room for the
//! link to a next one, so a queue of buffers does not allocate. A block that is written out of a
//! buffer and read into one again is the same list.
#![tactic(auto)]

mod block_buf;
mod buf_list;
mod buffer;
mod bytes;
mod chain;
mod walk;

pub use block_buf::BlockBuf;
pub use buf_list::BufList;
pub use buffer::Buffer;
// A crate can name a buffer in a contract only if the types of its fields are exported.
#[doc(hidden)]
pub use chain::{Chain, Node};
pub use ppq_record::{Listing, Memory, Record, record_laws};
