//! A device file.
ghost use Rattle.std.specs.Prelude.{◌≡◌, ◌≤◌, ⊤};
ghost use Rattle.ppq_outside.specs.Told.{Rose};

use crate::device_file::claim_sparing;
use crate::{NamedFiles, RawFile, RawFiles, RawSlot};
use ppq_checked::UntrustedRack;
use ppq_outside::{Host, OutsideFault};
use std::alloc::Global;

/// A device in a file of a machine; its name is the name of the file.
///
/// The file is created, or cut to length 0, when block 0 is made. So block 0 is to be made first; making
/// any other block before it fails. It keeps no account of the blocks that it made.
///
/// A plain file is locked as long as a block of it lives: a second device in it is refused, of this process or
/// of another, and what the first one keeps there stays. A file system without locks goes without.
#[derive(Drop)]
pub struct RawRack<'a, M: RawFiles> {
    // the machine
    machine: M,
    // the files that are no device of its
    spared: Option<&'a NamedFiles>,
    // the device file, once block 0 was made
    file: Option<M::File>,
    // how many calls failed
    faults: u64,
}

impl<'a, M: RawFiles> RawRack<'a, M> {
    /// A device of which no block was made yet. It opens no file. The device of one of the spared files is left as
    /// it is: the making of block 0 then fails.
    pub fn over(machine: M, spared: Option<&'a NamedFiles>) -> Self
        ensures { ⟦<RawRack<'a, M> as UntrustedRack>⟧.faults result ≡ 0 }
    {
        RawRack {
            machine,
            spared,
            file: None,
            faults: 0,
        }
    }

    // Counts a failed call.
    fn fault(&mut self) -> OutsideFault
        ensures failed { result ≡ OutsideFault.Failed }
        ensures later { self.old.faults ≤ self.new.faults }
        ensures rose { Rose self.old.faults self.new.faults }
    {
        self.faults = self.faults.saturating_add(1);
        OutsideFault::Failed
    }
}

impl<'a, M: RawFiles + Default> RawRack<'a, M> {
    /// The same over the default machine, with no spared file.
    pub fn new() -> Self
        ensures { ⟦<RawRack<'a, M> as UntrustedRack>⟧.faults result ≡ 0 }
    {
        RawRack::over(M::default(), None)
    }

    /// The same over the default machine.
    pub fn sparing(spared: &'a NamedFiles) -> Self
        ensures { ⟦<RawRack<'a, M> as UntrustedRack>⟧.faults result ≡ 0 }
    {
        RawRack::over(M::default(), Some(spared))
    }
}

impl<'a, M: RawFiles> UntrustedRack for RawRack<'a, M> {
    type Slot = RawSlot<M::File>;

    ghost tells = { λ _. ⊥ };

    ghost made = { λ _ _ _. ⊤ };

    ghost faults = { λ r. r.faults };

    fn faults(&self) -> u64 {
        self.faults
    }

    fn block<H: Host>(
        &mut self,
        rt: &H,
        alloc: Global,
        device: &str,
        number: u32,
        bytes: usize,
    ) -> Result<RawSlot<M::File>, OutsideFault> {
        if number == 0 {
            let mut file = match self.machine.open(rt, alloc, device) {
                Ok(file) => file,
                Err(OutsideFault::Failed) => return Err(self.fault()),
                Err(OutsideFault::Memory) => return Err(OutsideFault::Memory),
            };
            let Ok(()) = claim_sparing(&mut file, self.spared) else {
                return Err(self.fault());
            };
            self.file = Some(file);
        }
        match &self.file {
            Some(file) => Ok(RawSlot::new(file.share()?, number, bytes)),
            None => Err(self.fault()),
        }
    }
}
