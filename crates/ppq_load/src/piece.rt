//! A piece of a file, as a maker of the records in it.
ghost use Rattle.std.specs.Prelude.{◌≡◌};

use ppq_record::{Record, record_laws};
use ppq_session::Maker;
use std::marker::Model;

/// The bytes of a piece of a file, as a maker of the records that stand in them, one behind the other. Of bytes that
/// are fewer than a record has no record is made.
///
/// Contracts see the bytes that are left.
#[derive(Drop)]
pub struct Piece<'a> {
    // The bytes that are left.
    bytes: &'a [u8],
}

impl<'a> Model for Piece<'a> {
    ghost use Rattle.std.specs.Prelude.{List, ℕ};

    ghost Value = { List ℕ };

    ghost view = { λ p. p.bytes.now };
}

impl<'a> Piece<'a> {
    /// A maker of all records in these bytes, in their order.
    pub fn new(bytes: &'a [u8]) -> Piece<'a>
        ensures { result ≡ bytes.now }
    {
        Piece { bytes }
    }
}

impl<'a, R: Record> Maker<R> for Piece<'a> {
    ghost use Rattle.ppq_load.specs.Given.{records_of};

    ghost rest = { λ p. records_of R.record_of R.WIDTH p };

    fn left(&self) -> u64 {
        record_laws::<R>();
        (self.bytes.len() / R::WIDTH) as u64
    }

    fn part(&self, from: u64, count: u64) -> Piece<'a> {
        record_laws::<R>();
        let width = R::WIDTH;
        let bytes = self.bytes;
        let left = bytes.len() / width;
        let skipped = from.min(left as u64) as usize;
        let own = count.min((left - skipped) as u64) as usize;
        Piece {
            bytes: &bytes[skipped * width..(skipped + own) * width],
        }
    }

    #[inline]
    fn make(&mut self) -> Option<R> {
        record_laws::<R>();
        let width = R::WIDTH;
        let bytes = self.bytes;
        if bytes.len() < width {
            return None;
        }
        self.bytes = &bytes[width..];
        Some(R::take(&bytes[..width]))
    }
}
