//! Tests of passes and of their supplies.
#![tactic(auto)]

#[cfg(test)]
mod pass;
#[cfg(test)]
mod pass_device;
#[cfg(test)]
mod seats;
