//! The device in memory, which gives back what it was given.
ghost use Rattle.std.specs.Prelude.{⊤};

use crate::{UntrustedRack, UntrustedSlot};
use ppq_outside::{Failed, Host, MemRack, MemSlot, OutsideFault, Rack, Slot};
use std::alloc::Global;

impl UntrustedSlot for MemSlot {
    ghost shown = { ⟦<MemSlot as Slot>⟧.shown };

    ghost honest = { λ _. ⊤ };

    fn number(&self) -> u32 {
        Slot::number(self)
    }

    fn size(&self) -> usize {
        Slot::size(self)
    }

    fn faults(&self) -> u64 {
        Slot::faults(self)
    }

    fn writes(&self) -> u64 {
        Slot::writes(self)
    }

    fn reads(&self) -> u64 {
        Slot::reads(self)
    }

    fn write<H: Host>(&mut self, rt: &H, bytes: &[u8]) -> Result<(), Failed> {
        Slot::write(self, rt, bytes)
    }

    fn read<H: Host>(&mut self, rt: &H, into: &mut [u8]) -> Result<(), Failed> {
        Slot::read(self, rt, into)
    }

    fn expect<H: Host>(&self, rt: &H) -> bool {
        Slot::expect(self, rt)
    }
}

impl UntrustedRack for MemRack {
    type Slot = MemSlot;

    ghost tells = { ⟦<MemRack as Rack>⟧.tells };

    ghost made = { ⟦<MemRack as Rack>⟧.made };

    ghost faults = { ⟦<MemRack as Rack>⟧.faults };

    fn faults(&self) -> u64 {
        Rack::faults(self)
    }

    fn block<H: Host>(
        &mut self,
        rt: &H,
        alloc: Global,
        device: &str,
        number: u32,
        bytes: usize,
    ) -> Result<MemSlot, OutsideFault> {
        Rack::block(self, rt, alloc, device, number, bytes)
    }
}
