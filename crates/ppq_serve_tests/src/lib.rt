//! Tests of what `ppq-serve` reads: frames, requests and the first frame.
#![tactic(auto)]

#[cfg(test)]
mod frames;
#[cfg(test)]
mod hello;
#[cfg(test)]
mod operations;
#[cfg(test)]
mod requests;
