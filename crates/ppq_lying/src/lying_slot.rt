//! A block in memory of which one read lies.
ghost use Rattle.std.specs.Prelude.{◌≡◌, None};
ghost use Rattle.ppq_checked.specs.Untrusted.{SameOrNoticed};

use crate::Lie;
use ppq_checked::UntrustedSlot;
use ppq_outside::{Failed, Host, MemSlot, Slot};

/// A block in memory of which one read gives other bytes than it was given, and returns Ok.
#[derive(Drop)]
pub struct LyingSlot {
    // the block that has what was given
    inside: MemSlot,
    // what the read gives that lies, if one is to lie
    lie: Option<Lie>,
    // how many reads come before that one
    before: u64,
    // what it was given last
    given: Vec<u8>,
    // what it was given before that
    older: Vec<u8>,
}

impl LyingSlot {
    // A block over one in memory, of which the read after so many others lies, if one is to lie. It was given
    // these bytes, and before that others.
    pub(crate) fn new(
        inside: MemSlot,
        lie: Option<Lie>,
        before: u64,
        given: Vec<u8>,
        older: Vec<u8>,
    ) -> Self
        ensures { ⟦<LyingSlot as UntrustedSlot>⟧.shown result ≡ ⟦<MemSlot as Slot>⟧.shown inside }
    {
        LyingSlot {
            inside,
            lie,
            before,
            given,
            older,
        }
    }
}

// Writes bytes over others, as many as there are in both.
fn put(bytes: &mut [u8], other: &[u8]) {
    for (byte, written) in bytes.iter_mut().zip(other) {
        *byte = *written;
    }
}

impl UntrustedSlot for LyingSlot {
    ghost shown = { λ s. ⟦<MemSlot as Slot>⟧.shown s.inside };

    ghost honest = { λ s. s.lie ≡ None };

    fn number(&self) -> u32 {
        Slot::number(&self.inside)
    }

    fn size(&self) -> usize {
        Slot::size(&self.inside)
    }

    fn faults(&self) -> u64 {
        Slot::faults(&self.inside)
    }

    fn writes(&self) -> u64 {
        Slot::writes(&self.inside)
    }

    fn reads(&self) -> u64 {
        Slot::reads(&self.inside)
    }

    fn write<H: Host>(&mut self, rt: &H, bytes: &[u8]) -> Result<(), Failed> {
        let answer = Slot::write(&mut self.inside, rt, bytes);
        if answer.is_ok() {
            put(&mut self.older, &self.given);
            put(&mut self.given, bytes);
        }
        answer
    }

    fn read<H: Host>(&mut self, rt: &H, into: &mut [u8]) -> Result<(), Failed> {
        let is_next = Slot::reads(&self.inside) == self.before;
        let answer = Slot::read(&mut self.inside, rt, into);
        if let (Some(lie), true, Ok(())) = (&self.lie, is_next, answer) {
            lie.tell(&self.older, into);
        }
        answer
    }

    fn expect<H: Host>(&self, _rt: &H) -> bool {
        false
    }
}
