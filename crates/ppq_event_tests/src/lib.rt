//! Tests of the event simulation.
#![tactic(auto)]

#[cfg(test)]
mod desk;
#[cfg(test)]
mod drops;
#[cfg(test)]
mod faults;
#[cfg(test)]
mod meeting;
#[cfg(test)]
mod model;
#[cfg(test)]
mod random;
#[cfg(test)]
mod rows;
#[cfg(test)]
mod stress;
