//! Graph sweep: the levels of the nodes of an acyclic graph whose edges need not fit into memory.
//!
//! [`levels`] goes over the nodes in ascending order, and each node tells its level to those that its edges lead to,
//! by notes in a second queue. So nothing is looked up: what a node needs comes up when the node does ("time-forward
//! processing", after Chiang, Goodrich, Grove, Tamassia, Vengroff and Vitter, External-memory graph algorithms, 1995).
//! What is printed is a definition (`sweep_text` in `specs/Levels.antt`) on the edges alone, with no queue.
#![tactic(auto)]

mod fault;
mod laws;
mod line;
mod node;
mod sweep;
mod taking;
mod visit;

pub use fault::SweepFault;
pub use laws::level_law;
pub use ppq_queue::{Gate, Host, Pair, Queue, Sizes, Slot, StoreFault as QueueFault};
pub use ppq_text::Sink;
pub use sweep::levels;
