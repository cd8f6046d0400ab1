//! Output that is gathered before it is put.
ghost use Rattle.std.specs.Prelude.{◌≡◌, ◌≤◌, ◌+◌, ◌*◌, ◌++◌, [], length, OnOk, decimal};
ghost use Rattle.ppq_outside.specs.Told.{HasOneCause, TakesAll, TakesPart};
ghost use Rattle.ppq_text.specs.Gathering.{GathersNext, numbers_text};

use crate::room::Room;
use itoa::Buffer;
use ppq_outside::{Failed, Host, Sink};
use std::marker::Model;

/// The bytes that were printed and not yet put. It allocates nothing but its room.
#[derive(Drop)]
pub struct Gathered<B: Room> {
    room: B,
}

impl<B: Room> Model for Gathered<B> {
    ghost use Rattle.std.specs.Prelude.{List, ℕ};

    ghost Value = { List ℕ };

    ghost view = { λ g. B.held g.room };
}

impl<B: Room> Gathered<B> {
    /// Nothing gathered yet, with this room.
    pub fn new(room: B) -> Gathered<B>
        ensures { result ≡ [] }
    {
        let mut empty = room;
        empty.clear();
        Gathered { room: empty }
    }

    /// Makes room for so many bytes more: puts what was gathered where there is none.
    #[inline]
    pub fn make_room<H: Host, O: Sink>(
        &mut self,
        rt: &H,
        bytes: usize,
        out: &mut O,
    ) -> Result<(), Failed>
        requires { bytes ≤ B.CAPACITY }
        ensures room { OnOk result (length self.new + bytes ≤ B.CAPACITY) }
        ensures next { GathersNext (O.told out.old) (O.told out.new) (O.faults out.old) (O.faults out.new) self.old [] self.new result }
    {
        if self.room.bytes().len() > B::CAPACITY - bytes {
            self.put(rt, out)?;
        }
        Ok(())
    }

    /// Puts all that was gathered.
    pub fn put<H: Host, O: Sink>(&mut self, rt: &H, out: &mut O) -> Result<(), Failed>
        ensures all { OnOk result (TakesAll (O.told out.old) (O.told out.new) self.old) }
        ensures part { TakesPart (O.told out.old) (O.told out.new) self.old }
        ensures empty { OnOk result (self.new ≡ []) }
        ensures cause { HasOneCause (O.faults out.old) (O.faults out.new) result }
    {
        out.put(rt, self.room.bytes())?;
        self.room.clear();
        Ok(())
    }

    /// Gathers a text.
    #[inline]
    pub fn text(&mut self, text: &[u8])
        requires { length self.old + length text.now ≤ B.CAPACITY }
        ensures { self.new ≡ self.old ++ text.now }
    {
        self.room.append(text);
    }

    /// Gathers a number in decimal, of at most 20 digits.
    #[inline]
    pub fn number(&mut self, number: u64)
        requires { length self.old + 20 ≤ B.CAPACITY }
        ensures text { self.new ≡ self.old ++ decimal number }
        ensures length { length self.new ≤ length self.old + 20 }
    {
        let mut digits = Buffer::new();
        self.text(digits.format(number).as_bytes());
    }

    /// Gathers numbers in decimal, parted by one space.
    pub fn numbers(&mut self, numbers: &[u64])
        requires { length self.old + 21 * length numbers.now ≤ B.CAPACITY }
        ensures text { self.new ≡ self.old ++ numbers_text numbers.now }
        ensures length { length self.new ≤ length self.old + 21 * length numbers.now }
    {
        let Some((first, others)) = numbers.split_first() else {
            return;
        };
        self.number(*first);
        for i in 0..others.len() {
            self.text(b" ");
            self.number(others[i]);
        }
    }
}
