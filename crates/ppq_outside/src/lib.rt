//! The traits of the outside, and their implementations in memory.
//!
//! A device is blocks of equal size (`Slot`) that a `Rack` makes. Files are read through a
//! `Library`, output goes to a `Sink`, requests come from a `Source`, and workers pass a `Gate`. The contracts of these traits
//! have two kinds of clauses. Counts are kept whatever happens: an answer `Failed` always raises
//! one, and every other answer leaves it. What a call does to bytes is said only where the
//! implementation tells: those in memory (`MemSlot`, `MemRack`, `MemLibrary`, `MemSink`, `MemSource`) tell, unless a
//! rack forges or a file was shrunk, and those over real files do not.
#![tactic(auto)]

mod fault;
mod forged;
mod gate;
mod host;
mod library;
mod memory_library;
mod memory_rack;
mod memory_sink;
mod memory_slot;
mod memory_source;
mod pays;
mod rack;
mod sink;
mod slot;
mod source;

pub use fault::{Failed, OutsideFault};
pub use gate::{Gate, OpenGate};
pub use host::Host;
pub use library::Library;
pub use memory_library::MemLibrary;
pub use memory_rack::MemRack;
pub use memory_sink::MemSink;
pub use memory_slot::MemSlot;
pub use memory_source::MemSource;
pub use pays::{
    LEAST_GROUP, LEAST_PIECE, LEAST_PIECE_OF_A_RUN, LEAST_RECORDS_BESIDE, LEAST_WORKERS_BESIDE,
    MOST_GROUP,
};
pub use ppq_record::Memory;
pub use rack::Rack;
pub use sink::Sink;
pub use slot::Slot;
pub use source::Source;
