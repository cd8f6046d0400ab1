//! What a queue counts so that its writes are bounded: the records that it accepted, the stores of a full
//! heap that were begun, and the sessions that were begun.
//!
//! [`Counts`] has these three numbers. What a store or a merge of runs may cost is told by levels and lengths
//! of runs alone, as an account (`specs/Account`); lemmas say that the numbers pay for it (`proofs/`).
#![tactic(auto)]

mod counts;

pub use counts::Counts;
