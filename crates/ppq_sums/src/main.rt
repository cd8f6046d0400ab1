//! Times the sums of blocks, and a script over a device in memory that gives back other bytes than it was given.
//!
//! With the argument `lying` it executes `gen 7 4000000` and `drain 4000000` over a device in memory, and over one that
//! gives back other bytes than it was given, and prints how many nanoseconds each took. With the argument `sum` it
//! prints how many picoseconds the sums of a record take, at its write and its read together, and what they add up to.
//! `bench/lying` runs both. With no argument it executes a shorter script over both devices, and says that both runs
//! were done.
#![tactic(auto)]

mod lying;
mod sums;

use lying::{LONG, SHORT, honest_and_lying};
use ppq_outside::Host;
use std::alloc::Global;
use std::io::ErrorKind;
use std::rt::Clock;
use std::{env, io};
use sums::picoseconds_of_sums;

// An allocation that failed, as an error.
pub(crate) fn out_of_memory() -> io::Error {
    io::Error::from(ErrorKind::OutOfMemory)
}

// The arguments.
fn words_of(rt: &HostRuntime) -> io::Result<Vec<String>> {
    let words = env::args(rt)?.skip(1).collect(rt.alloc());
    words.map_err(|_| out_of_memory())
}

// Prints how many nanoseconds a script takes over a device that keeps what it is given, and over one that does not.
fn print_lying<H: Host + Clock>(rt: &H, alloc: Global) -> io::Result<()>
where
    H::Dir: Send,
{
    let (honest, lying) = honest_and_lying(rt, alloc, LONG)?;
    println!(rt; "{honest} {lying}")?;
    Ok(())
}

// Prints how many picoseconds the sums of a record take, and what all of them add up to.
fn print_sums<H: Clock + Print>(rt: &H, alloc: Global) -> io::Result<()> {
    let (took, all) = picoseconds_of_sums(rt, alloc)?;
    println!(rt; "{took} {all}")?;
    Ok(())
}

// Executes a short script over both devices, and says that both runs were done.
fn check<H: Host + Clock>(rt: &H, alloc: Global) -> io::Result<()>
where
    H::Dir: Send,
{
    honest_and_lying(rt, alloc, SHORT)?;
    println!(rt; "both runs are done")?;
    Ok(())
}

fn main(rt: HostRuntime) -> io::Result<()> {
    let words = words_of(&rt)?;
    match words.first() {
        None => check(&rt, rt.alloc()),
        Some(word) if word.as_str() == "lying" => print_lying(&rt, rt.alloc()),
        Some(word) if word.as_str() == "sum" => print_sums(&rt, rt.alloc()),
        Some(_) => Err(io::Error::from(ErrorKind::InvalidInput)),
    }
}
