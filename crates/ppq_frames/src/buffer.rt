//! Bytes that came from a source and wait.
ghost use Rattle.std.specs.Prelude.{◌≡◌, ◌≤◌, ◌+◌, ◌++◌, [], length, drop, IfOk, OnErr};
ghost use Rattle.ppq_outside.specs.Told.{HasOneCause, GivesBehind};
ghost use Rattle.ppq_frames.specs.Buffered.{empty_buffer, HasRead};

use ppq_outside::{Failed, Host, Memory, Source};
use std::alloc::Global;
use std::marker::Model;

// The bytes that came from a source and wait, in memory of 4,194,308 bytes that is allocated once. Contracts
// see them, and how many more have room behind them.
#[derive(Drop)]
pub(crate) struct Buffer {
    bytes: Vec<u8>,
    // Where the bytes that wait begin, and where they end.
    from: usize,
    to: usize,
}

impl Model for Buffer {
    ghost use Rattle.std.specs.Prelude.{◌≡◌, ◌≤◌, ◌-◌, vec_len, take, drop};
    ghost use Rattle.ppq_frames.specs.Buffered.{Buffered};

    ghost Value = { Buffered };

    ghost view = { λ s. record { waiting = take (s.to - s.from) (drop s.from s.bytes.items); room = 4194308 - s.to } };

    ghost invariant = { λ s. (s.from ≤ s.to) × (s.to ≤ vec_len s.bytes) × (vec_len s.bytes ≡ 4194308) };
}

impl Buffer {
    // Nothing came so far.
    pub(crate) fn new(alloc: Global) -> Result<Buffer, Memory>
        ensures { IfOk result (λ buffer. buffer ≡ empty_buffer) }
    {
        let bytes = vec![in alloc; 0u8; 4_194_308]?;
        Ok(Buffer {
            bytes,
            from: 0,
            to: 0,
        })
    }

    // The bytes that wait.
    pub(crate) fn waiting(&self) -> &[u8]
        ensures { result.now ≡ self.now.waiting }
    {
        &self.bytes[self.from..self.to]
    }

    // Takes the first so many bytes. Moves nothing.
    pub(crate) fn skip(&mut self, count: usize)
        requires { count ≤ length self.old.waiting }
        ensures { self.new.waiting ≡ drop count self.old.waiting }
    {
        self.from += count;
    }

    // Makes room for so many bytes in all from the first that waits: moves those that wait to the front if
    // there is none.
    pub(crate) fn make_room(&mut self, count: usize)
        requires { count ≤ 4194308 }
        ensures same { self.new.waiting ≡ self.old.waiting }
        ensures room { count ≤ length self.new.waiting + self.new.room }
    {
        if self.bytes.len() - self.from < count {
            self.bytes.copy_within(self.from..self.to, 0);
            self.to -= self.from;
            self.from = 0;
        }
    }

    // Asks the source once, for as many bytes as have room, and says how many came.
    pub(crate) fn read<H: Host, I: Source>(
        &mut self,
        rt: &H,
        source: &mut I,
    ) -> Result<usize, Failed>
        ensures read { IfOk result (HasRead (I.told source.old) (I.told source.new) (I.gave source.old) (I.gave source.new) (I.over source.new) self.old self.new) }
        ensures same { OnErr result (self.new.waiting ≡ self.old.waiting) }
        ensures kept { OnErr result (I.told source.new ≡ I.told source.old) }
        ensures remembers { OnErr result (GivesBehind (I.gave source.old) (I.gave source.new) []) }
        ensures cause { HasOneCause (I.faults source.old) (I.faults source.new) result }
    {
        let count = source.get(rt, &mut self.bytes[self.to..])?;
        self.to += count;
        Ok(count)
    }
}
