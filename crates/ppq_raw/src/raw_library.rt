//! The files of a machine, as a library.
ghost use Rattle.std.specs.Prelude.{None, ◌≡◌, ◌≤◌, ⊤};
ghost use Rattle.ppq_outside.specs.Told.{Rose};

use crate::{FileNumbers, NamedFiles, RawFiles};
use ppq_outside::{Host, Library, OutsideFault};
use std::alloc::{AllocError, Global};

/// The plain files of a machine. It tells nothing of what they hold, and keeps no reply apart from another.
///
/// A folder, a pipe or a device is there and has no length that its reads could keep to, so it is
/// a fault to ask for it.
#[derive(Drop)]
pub struct RawLibrary<'a, M: RawFiles> {
    // the machine
    machine: M,
    // where it adds the files that it is asked for
    named: Option<&'a NamedFiles>,
    // how many calls failed
    faults: u64,
}

impl<'a, M: RawFiles> RawLibrary<'a, M> {
    /// A library without a fault so far. If there is a list, it adds each plain file that it is asked for to it, so
    /// a question after a length may allocate.
    pub fn over(machine: M, named: Option<&'a NamedFiles>) -> Self
        ensures { ⟦<RawLibrary<'a, M> as Library>⟧.faults result ≡ 0 }
    {
        RawLibrary {
            machine,
            named,
            faults: 0,
        }
    }

    // Adds a file that it was asked for, where it does so.
    fn add(&self, alloc: Global, file: FileNumbers) -> Result<(), AllocError> {
        match self.named {
            Some(named) => named.add(alloc, file),
            None => Ok(()),
        }
    }

    // Counts a failed call.
    fn fault(&mut self) -> OutsideFault
        ensures failed { result ≡ OutsideFault.Failed }
        ensures later { self.old.faults ≤ self.new.faults }
        ensures rose { Rose self.old.faults self.new.faults }
    {
        self.faults = self.faults.saturating_add(1);
        OutsideFault::Failed
    }
}

impl<'a, M: RawFiles + Default> RawLibrary<'a, M> {
    /// A library over the default machine, without a fault so far.
    pub fn new() -> Self
        ensures { ⟦<RawLibrary<'a, M> as Library>⟧.faults result ≡ 0 }
    {
        RawLibrary::over(M::default(), None)
    }

    /// The same, which adds each plain file that it is asked for to these. So a question after a length may
    /// allocate.
    pub fn naming(named: &'a NamedFiles) -> Self
        ensures { ⟦<RawLibrary<'a, M> as Library>⟧.faults result ≡ 0 }
    {
        RawLibrary::over(M::default(), Some(named))
    }
}

impl<'a, M: RawFiles> Library for RawLibrary<'a, M> {
    ghost told = { λ _. None };

    ghost replied = { λ _ _. ⊤ };

    ghost faults = { λ d. d.faults };

    fn faults(&self) -> u64 {
        self.faults
    }

    fn length<H: Host>(
        &mut self,
        rt: &H,
        alloc: Global,
        name: &str,
    ) -> Result<Option<u64>, OutsideFault> {
        match self.machine.look(rt, name) {
            Ok(Some(said)) if said.is_plain => {
                self.add(alloc, said.numbers)?;
                Ok(Some(said.size))
            }
            Ok(Some(_)) => Err(self.fault()),
            Ok(None) => Ok(None),
            Err(_) => Err(self.fault()),
        }
    }

    fn read_at<H: Host>(
        &mut self,
        rt: &H,
        _alloc: Global,
        name: &str,
        at: u64,
        into: &mut [u8],
    ) -> Result<usize, OutsideFault> {
        match self.machine.read_at(rt, name, at, into) {
            Ok(count) => Ok(count),
            Err(_) => Err(self.fault()),
        }
    }

    ghost truth = { λ _ _ _. tt };
}
