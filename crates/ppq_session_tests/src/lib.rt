//! Tests of sessions: bulk sessions and limit sessions.
#![tactic(auto)]

#[cfg(test)]
mod bulk;
#[cfg(test)]
mod faults;
#[cfg(test)]
mod generic;
#[cfg(test)]
mod kinds;
#[cfg(test)]
mod limit;
#[cfg(test)]
mod limited;
#[cfg(test)]
mod records;
#[cfg(test)]
mod session;
mod short;
#[cfg(test)]
mod slices;
#[cfg(test)]
mod threads;

pub use short::Short;
