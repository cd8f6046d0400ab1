//! A record file that is read piece by piece.
ghost use Rattle.std.specs.Prelude.{◌≡◌, ◌≤◌, ◌*◌, ◌/◌, ◌↔◌, ◌^◌, IsTrue, length, take, IfOk, IfErr, OnErr};
ghost use Rattle.ppq_files.specs.Reading.{HasLength, ReadsFile, CountsBy};
ghost use Rattle.ppq_files.specs.Filling.{FaultAfter, PieceEndsIn};
ghost use Rattle.ppq_files.specs.Pieces.{IsNextPiece};

use crate::context::Context;
use crate::fault::FileFault;
use crate::fill::fill;
use ppq_outside::{Host, Library};
use ppq_record::{Record, record_laws};
use std::marker::Model;

/// A record file that is read piece by piece, so that a caller sees the bytes of each piece before it does
/// something with its records.
///
/// Contracts see its name, how many bytes the library said that it has, and how many of its records were read.
#[derive(Drop)]
pub struct Pieces<'a> {
    // Its name.
    name: &'a str,
    // How many bytes the library said that it has.
    said: u64,
    // How many of its records were read.
    from: u64,
}

impl<'a> Model for Pieces<'a> {
    ghost use Rattle.ppq_files.specs.Pieces.{PieceState};

    ghost Value = { PieceState };

    ghost view = { λ p. record { name = p.name.now; said = p.said; from = p.from } };
}

impl<'a> Pieces<'a> {
    /// A file of which nothing was read yet. The library said that it has so many bytes.
    pub fn new(name: &'a str, said: u64) -> Pieces<'a>
        ensures { result ≡ record { name = name.now; said = said; from = 0 } }
    {
        Pieces {
            name,
            said,
            from: 0,
        }
    }

    /// Whether all its whole records were read.
    pub fn is_over<R: Record>(&self) -> bool
        ensures { IsTrue result ↔ (self.now.said / R.WIDTH ≤ self.now.from) }
    {
        record_laws::<R>();
        self.said / R::WIDTH as u64 <= self.from
    }

    /// Reads the next records into the first bytes of `room`, as many as it has place for, and returns how many
    /// bytes these are: 0 only where all were read. No byte past the length that was said is asked for.
    pub fn next<R: Record, H: Host, L: Library>(
        &mut self,
        context: &Context<H>,
        library: &mut L,
        room: &mut [u8],
    ) -> Result<usize, FileFault>
        requires room { R.WIDTH ≤ length room.old }
        requires fits { self.old.said ≤ 2 ^ 63 }
        requires within { self.old.from * R.WIDTH ≤ self.old.said }
        requires long { HasLength (L.told library.old) self.old.name self.old.said }
        ensures length { length room.new ≡ length room.old }
        ensures piece { IfOk result (λ count. IsNextPiece R.WIDTH (L.told library.old) (L.replied library.new) self.old (take count room.new) count self.new) }
        ensures same { OnErr result (self.new ≡ self.old) }
        ensures ended { IfErr result (PieceEndsIn (L.told library.old) (L.replied library.new) self.old.name self.old.said) }
        ensures reads { ReadsFile L.told L.replied self.old.name self.old.said library.old library.new }
        ensures counts { CountsBy FaultAfter (L.faults library.old) (L.faults library.new) result }
    {
        record_laws::<R>();
        let width = R::WIDTH;
        let left = self.said / width as u64 - self.from;
        let count = left.min((room.len() / width) as u64);
        let piece = &mut room[..count as usize * width];
        let bytes = piece.len();
        if let Err(fault) = fill(context, library, self.name, self.from * width as u64, piece) {
            return Err(fault);
        }
        self.from += count;
        Ok(bytes)
    }
}
