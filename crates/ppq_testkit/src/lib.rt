//! What several test crates use: records, generated numbers, blocks and queues in memory, the bound on what a queue
//! writes, and gates that hold workers until others are under way.
#![tactic(auto)]

mod blocks;
mod crowd_gate;
mod draws;
mod pair_gate;
mod queues;
mod records;
mod solo_gate;
mod written;

pub use blocks::blocks_of;
pub use crowd_gate::CrowdGate;
pub use draws::draw;
pub use pair_gate::PairGate;
pub use queues::{opened, pushed};
pub use records::{pair, triple};
pub use solo_gate::SoloGate;
pub use written::most_written;
