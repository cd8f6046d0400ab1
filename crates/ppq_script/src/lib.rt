//! Scripts: lines of commands, and the first line that is bad.
//!
//! A script is bytes. Its lines are cut at line feeds; each line is a command or bad. The first one may
//! be a head, which tells what records the script is about and which of them goes first: a type of
//! records, by which the script is read. The whole script is read before anything is executed, so a bad line
//! costs nothing but its report.
#![tactic(auto)]

mod check;
mod command;
mod digits;
mod fields;
mod form;
mod head;
mod kind;
mod laws;
mod line;
mod numbered;
mod numbers;
mod order;
mod part;
mod reader;
mod script;
mod session;

pub use check::{CheckFault, check_files};
pub use command::Command;
pub use digits::number;
pub use form::Form;
pub use head::{Head, read_head};
pub use kind::Kind;
pub use laws::lines_mean;
pub use numbered::Numbered;
pub use order::Order;
pub use part::Part;
pub use ppq_outside::{Failed, Gate, Host, Library, OpenGate, OutsideFault, Rack, Sink, Slot};
pub use ppq_record::{Down, Fields, Memory, Pair, Record, Triple};
pub use reader::read;
pub use script::Script;
