//! Tests of the engine: what scripts print, and what generated ones print of a sorted list.
#![tactic(auto)]

#[cfg(test)]
mod engine;
#[cfg(test)]
mod generated;
#[cfg(test)]
mod laws;
#[cfg(test)]
mod list;
#[cfg(test)]
mod runs;
