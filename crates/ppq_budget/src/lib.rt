//! The sizes of a queue: how many records each part may hold, how many buffers the budget leaves
//! for the pool, and how many device blocks are enough for a load.
#![tactic(auto)]

mod levels;
mod sizes;
mod too_small;

pub use levels::{FAN, LEVELS, MOST_RUNS, levels_law};
pub use sizes::{Sizes, fixed_parts};
pub use too_small::TooSmall;
