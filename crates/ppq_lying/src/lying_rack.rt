//! A device in memory of which one read lies.
ghost use Rattle.std.specs.Prelude.{◌≡◌, ℕ, List, []};

use crate::{Lie, LyingSlot};
use ppq_checked::UntrustedRack;
use ppq_outside::{Host, MemRack, OutsideFault, Rack};
use std::alloc::Global;

/// A device in memory of which one read of one block gives other bytes than the block was given, and returns Ok.
#[derive(Drop)]
pub struct LyingRack {
    // the device that has what was given
    inside: MemRack,
    // the block that lies
    number: u32,
    // how many of its reads come before the one that lies
    before: u64,
    // what that read gives, until the block is made
    lie: Option<Lie>,
}

impl LyingRack {
    /// A device whose block with this number lies in the read after so many others.
    pub fn new(number: u32, before: u64, lie: Lie) -> Self
        ensures tells { ⟦<LyingRack as UntrustedRack>⟧.tells result }
        ensures made { (device : List ℕ) → ⟦<LyingRack as UntrustedRack>⟧.made result device [] }
        ensures faults { ⟦<LyingRack as UntrustedRack>⟧.faults result ≡ 0 }
    {
        LyingRack {
            inside: MemRack::new(),
            number,
            before,
            lie: Some(lie),
        }
    }
}

impl UntrustedRack for LyingRack {
    type Slot = LyingSlot;

    ghost tells = { λ r. ⟦<MemRack as Rack>⟧.tells r.inside };

    ghost made = { λ r. ⟦<MemRack as Rack>⟧.made r.inside };

    ghost faults = { λ r. ⟦<MemRack as Rack>⟧.faults r.inside };

    fn faults(&self) -> u64 {
        Rack::faults(&self.inside)
    }

    fn block<H: Host>(
        &mut self,
        rt: &H,
        alloc: Global,
        device: &str,
        number: u32,
        bytes: usize,
    ) -> Result<LyingSlot, OutsideFault> {
        let given = vec![in alloc; 0; bytes]?;
        let older = vec![in alloc; 0; bytes]?;
        let inside = Rack::block(&mut self.inside, rt, alloc, device, number, bytes)?;
        let lie = if number == self.number {
            self.lie.take()
        } else {
            None
        };
        Ok(LyingSlot::new(inside, lie, self.before, given, older))
    }
}
