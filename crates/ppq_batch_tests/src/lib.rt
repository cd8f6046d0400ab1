//! Tests of loads and of the batches of a limit session.
#![tactic(auto)]

#[cfg(test)]
mod batch;
#[cfg(test)]
mod kinds;
#[cfg(test)]
mod load;
#[cfg(test)]
mod pieces;
#[cfg(test)]
mod queues;
