//! What a call of the outside needs of the runtime.
use std::fs::{File, Files};
use std::io::{Eprint, Print};
use std::thread::Threads;

/// A runtime that starts threads, opens files and prints: all that a call of the outside may need. Each
/// runtime with these bounds is one.
///
/// It has no handle to wait with, so each call that is handed it is proved to return. An implementation of a
/// trait of the outside can take no lock and wait for no other thread in its calls.
///
/// A function that passes `rt: &H` into a closure of `join_mut` or its kin, where the closure calls
/// the outside, needs `where H::Dir: Send` beside `H: Host`, and so does each of its callers.
pub trait Host: Threads + Files<File = File> + Print + Eprint + Sync {}

impl<H: Threads + Files<File = File> + Print + Eprint + Sync> Host for H {}
