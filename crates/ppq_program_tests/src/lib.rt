//! Tests of the top call over memory and over real files, and of its report.
#![tactic(auto)]

#[cfg(test)]
mod costs;
#[cfg(test)]
mod faults;
#[cfg(test)]
mod files;
#[cfg(test)]
mod forging;
#[cfg(test)]
mod memory;
#[cfg(test)]
mod report;
#[cfg(test)]
mod scripts;
#[cfg(test)]
mod sim;
#[cfg(test)]
mod sweeps;
#[cfg(test)]
mod transfers;
