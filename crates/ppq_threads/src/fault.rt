//! Why the program stops early.
use std::alloc::AllocError;
use std::fmt;

// Why the program stopped early.
#[derive(Clone, Copy, Debug)]
pub(crate) enum Fault {
    Device,
    Open,
    Session,
    Queue,
    Memory,
    Print,
}

impl fmt::Display for Fault {
    fn fmt<W: fmt::Write>(&self, f: &mut fmt::Formatter<W>) -> fmt::Result {
        f.write_str(match self {
            Fault::Device => "the device file cannot be made",
            Fault::Open => "the queue cannot be opened",
            Fault::Session => "a session did not begin, or did not take all records",
            Fault::Queue => "a call of the queue was refused",
            Fault::Memory => "no memory",
            Fault::Print => "standard output takes nothing more",
        })
    }
}

impl From<AllocError> for Fault {
    fn from(_error: AllocError) -> Self {
        Fault::Memory
    }
}
