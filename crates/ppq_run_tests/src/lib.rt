//! Tests of runs: buffers, lanes, arrays, the extract buffer and stores.
#![tactic(auto)]

#[cfg(test)]
mod array;
#[cfg(test)]
mod block;
#[cfg(test)]
mod counts;
#[cfg(test)]
mod device;
#[cfg(test)]
mod extract;
#[cfg(test)]
mod lane;
#[cfg(test)]
mod merge;
#[cfg(test)]
mod quiet_slot;
#[cfg(test)]
mod spill;
