//! Tests of blocks that notice when what is read is not what was written, of the sum of bytes, and of what is made of
//! raw calls.
#![tactic(auto)]

#[cfg(test)]
mod checked;
#[cfg(test)]
mod memory_file;
#[cfg(test)]
mod raw;
#[cfg(test)]
mod sums;
