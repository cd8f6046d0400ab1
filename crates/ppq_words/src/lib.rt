//! The arguments of the command line, read with `clap`.
//!
//! `run SCRIPT --device FILE --blocks D --workers P --block B --heap H (--memory M | --memory-bytes N)
//! [--form text|bytes]`: the word `run` and, in any order, the script's name and the options, none
//! twice. An option's value is the next word (`--heap 1`), or follows `=` in the same word
//! (`--heap=1`). There is no help and no version option.
//!
//! `sim AGENDA --device FILE --blocks D --workers P --block B --heap H (--memory M | --memory-bytes N)
//! --until T --events E`: the same for a simulation, with the word `sim`, the agenda's name in place of
//! the script's, and other options in place of `--form`.
//!
//! `sweep EDGES --device FILE --blocks D --workers P --block B --heap H (--memory M | --memory-bytes N)
//! --nodes V`: the same for a sweep over a graph, with the word `sweep`, the name of the file of edges in
//! place of the script's, and another option in place of `--form`.
//!
//! `serve --device FILE --blocks D --workers P --block B --heap H (--memory M | --memory-bytes N)`: the same
//! for the program `ppq-serve`, with the word `serve` and no word that stands alone.
//!
//! A command is a description (`Usage`): its word, and its options. The crate looks for the word and
//! for stray hyphens first, then `clap` splits the words into names and values, and then the crate
//! reads the values: what must stand, what excludes what, and numbers by the grammar of scripts.
#![tactic(auto)]

mod budget_unit;
mod given_sizes;
mod laws;
mod run_arguments;
mod serve_arguments;
mod serve_laws;
mod serve_values;
mod serve_words;
mod sim_arguments;
mod sim_laws;
mod sim_values;
mod sim_words;
mod strays;
mod sweep_arguments;
mod sweep_laws;
mod sweep_values;
mod sweep_words;
mod usage;
mod values;
mod words;

pub use budget_unit::BudgetUnit;
pub use given_sizes::GivenSizes;
pub use laws::words_mean;
pub use ppq_budget::Sizes;
pub use ppq_script::{
    CheckFault, Down, Failed, Fields, Form, Gate, Head, Host, Kind, Library, Memory, OpenGate,
    Order, OutsideFault, Pair, Rack, Record, Script, Sink, Slot, Triple, check_files, read,
    read_head,
};
pub use run_arguments::RunArguments;
pub use serve_arguments::ServeArguments;
pub use serve_laws::serve_words_mean;
pub use serve_words::read_serve_words;
pub use sim_arguments::SimArguments;
pub use sim_laws::sim_words_mean;
pub use sim_words::read_sim_words;
pub use sweep_arguments::SweepArguments;
pub use sweep_laws::sweep_words_mean;
pub use sweep_words::read_sweep_words;
pub use words::read_words;
