//! A device of blocks that notice when what is read is not what was written.
ghost use Rattle.std.specs.Prelude.{◌≡◌};

use crate::{Checked, UntrustedRack};
use ppq_outside::{Host, OutsideFault, Rack};
use std::alloc::Global;
use std::marker::Model;

/// A device of checked blocks, over another device: its blocks are those of the device inside, each in a
/// [`Checked`].
///
/// The blocks of the device inside may give back other bytes than they were given, and it is a [`Rack`] all the
/// same: each clause on what a device holds is true of it, and so is all that is proved over any [`Rack`].
///
/// Contracts see the device inside: whether its contents are visible to proofs, which blocks it made, and how many
/// calls failed.
#[derive(Drop)]
pub struct CheckedRack<R: UntrustedRack + Drop> {
    // the device that makes the blocks
    inside: R,
}

impl<R: UntrustedRack + Drop> Model for CheckedRack<R> {
    ghost Value = { R };

    ghost view = { λ r. r.inside };
}

impl<R: UntrustedRack + Drop> CheckedRack<R> {
    /// A device over another one. It makes no block.
    pub fn new(inside: R) -> Self
        ensures { result ≡ inside }
    {
        CheckedRack { inside }
    }
}

impl<R: UntrustedRack + Drop> Rack for CheckedRack<R> {
    type Slot = Checked<R::Slot>;

    ghost tells = { R.tells };

    ghost made = { R.made };

    ghost faults = { R.faults };

    fn faults(&self) -> u64 {
        self.inside.faults()
    }

    fn block<H: Host>(
        &mut self,
        rt: &H,
        alloc: Global,
        device: &str,
        number: u32,
        bytes: usize,
    ) -> Result<Checked<R::Slot>, OutsideFault> {
        match self.inside.block(rt, alloc, device, number, bytes) {
            Ok(slot) => Ok(Checked::new(slot)),
            Err(fault) => Err(fault),
        }
    }
}
