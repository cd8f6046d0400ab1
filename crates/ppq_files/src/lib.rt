//! Named files that are read: whole, or as records piece by piece.
//!
//! Contracts say what the library replied, which is true of every library, and what that means of the files
//! of one that tells. No byte past the length that was said of a file is asked for.
#![tactic(auto)]

mod context;
mod fault;
mod fill;
mod length;
mod pieces;
mod whole;

pub use context::Context;
pub use fault::FileFault;
pub use length::{LengthFault, record_length};
pub use pieces::Pieces;
pub use ppq_outside::{Host, Library, OutsideFault};
pub use ppq_record::Record;
pub use whole::{WholeFault, read_whole};
