//! Tests of the graph sweep.
#![tactic(auto)]

#[cfg(test)]
mod chain;
#[cfg(test)]
mod desk;
#[cfg(test)]
mod faults;
#[cfg(test)]
mod model;
#[cfg(test)]
mod random;
#[cfg(test)]
mod rows;
