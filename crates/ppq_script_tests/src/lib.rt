//! Tests of scripts, arguments, and the files and streams of the machine.
#![tactic(auto)]

#[cfg(test)]
mod arguments;
#[cfg(test)]
mod edge;
#[cfg(test)]
mod files;
#[cfg(test)]
mod heads;
#[cfg(test)]
mod parts;
#[cfg(test)]
mod script;
#[cfg(test)]
mod serve_arguments;
#[cfg(test)]
mod sim_arguments;
#[cfg(test)]
mod sweep_arguments;
