//! Executes a script: each command acts on one queue of records and prints one text.
#![tactic(auto)]

mod answer;
mod batch;
mod collected;
mod desk;
mod drained;
mod end;
mod items;
mod laws;
mod limits;
mod load;
mod machine;
mod pop;
mod print;
mod run;
mod session;
mod step;
mod stop;
mod world;

pub use answer::Answer;
pub use desk::Desk;
pub use drained::Drained;
pub use end::{End, Ended};
pub use laws::{drain_laws, frame_laws, load_laws, session_laws};
pub use machine::Machine;
pub use ppq_load::{
    BeginFault, Context, FileFault, LoadFault, Maker, OpenFault, Out, Piece, Pieces, Queue,
    Session, load_file,
};
pub use ppq_script::{
    Command, Form, Head, Library, Memory, Script, Sink, check_files, read, read_head,
};
pub use ppq_text::{Gathered, OnHeap};
pub use run::{fault_end, put_rest, put_stopped, run_script, unopened};
pub use stop::Stop;
pub use world::World;
