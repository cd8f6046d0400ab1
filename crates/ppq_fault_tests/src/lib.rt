//! Tests of the top call over an outside in memory of which each call fails in turn, and of which each read of a block
//! lies in turn.
#![tactic(auto)]

#[cfg(test)]
mod call;
#[cfg(test)]
mod cases;
#[cfg(test)]
mod lies;
#[cfg(test)]
mod runs;
#[cfg(test)]
mod turns;
