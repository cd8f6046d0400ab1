//! Tests of the queue of one owner.
#![tactic(auto)]

#[cfg(test)]
mod beside;
#[cfg(test)]
mod bulk;
#[cfg(test)]
mod queue;
#[cfg(test)]
mod told;
#[cfg(test)]
mod transfers;
#[cfg(test)]
mod workers;
