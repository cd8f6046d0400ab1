//! Tests of `serve`: what requests are answered, which are refused, and how a talk ends whose outside fails.
#![tactic(auto)]

#[cfg(test)]
mod failing;
#[cfg(test)]
mod generated;
#[cfg(test)]
mod list;
#[cfg(test)]
mod open;
#[cfg(test)]
mod refused;
#[cfg(test)]
mod talks;
#[cfg(test)]
mod types;
