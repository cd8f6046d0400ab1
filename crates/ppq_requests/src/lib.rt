//! Requests: what a client asks of a queue, in bytes.
//!
//! A request is operations, one behind the other, none or more. An operation is a letter, and behind it
//! records in their bytes and numbers with their highest byte first: `+` and a record; `P`, a number of
//! 4 bytes and so many records; `p`; `t`; `n` and a number of 8 bytes; `b`, a record and a number of
//! 8 bytes. Each stands for commands of scripts. The first frame of all is none of these: it names the
//! protocol and the records, as `ppq-serve 1 pair up`.
//!
//! A request is checked whole (`is_request`) before the first of its operations is cut off
//! (`cut_operation`). Nothing here allocates.
#![tactic(auto)]

mod cuts;
mod hello;
mod laws;
mod operation;
mod request;

pub use cuts::cut_record;
pub use hello::read_hello;
pub use laws::{hello_means, requests_mean};
pub use operation::Operation;
pub use ppq_script::{
    Command, Down, Failed, Fields, Gate, Head, Host, Kind, Memory, OpenGate, Order, OutsideFault,
    Pair, Rack, Record, Sink, Slot, Triple,
};
pub use request::{cut_operation, is_request};
