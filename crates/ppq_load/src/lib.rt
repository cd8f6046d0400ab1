//! Sessions in which a queue gets many records that nobody lists: generated ones, or those of a file.
//!
//! [`load_generated`] and [`load_file`], which reads a file piece by piece, are whole sessions: each pass gets an
//! equal part of the records, which the worker that adds them makes of a seed or of the file's bytes. At the end
//! the queue has them all. A caller that reads a file itself deals each [`Piece`] to a session of its own.
#![tactic(auto)]

mod fault;
mod file;
mod generate;
mod generator;
mod laws;
mod piece;

pub use fault::LoadFault;
pub use file::load_file;
pub use generate::load_generated;
pub use laws::generated_laws;
pub use piece::Piece;
pub use ppq_files::{Context, FileFault, Pieces};
pub use ppq_session::{
    Ask, BeginFault, LimitSession, Line, Maker, OpenFault, Out, Queue, Session, Sizes, StoreFault,
    StoreFault as QueueFault,
};
