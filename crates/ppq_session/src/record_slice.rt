//! Records that stand in a slice, as a maker.
ghost use Rattle.std.specs.Prelude.{◌≡◌};

use crate::Maker;
use ppq_pass::Record;
use std::marker::Model;

/// The records of a slice, as a maker: what it makes next is the first record that is left.
///
/// Contracts see the records that are left. It costs no memory, and a part of it is a part of the slice.
#[derive(Drop)]
pub struct RecordSlice<'a, R> {
    // The records that are left.
    records: &'a [R],
}

impl<'a, R> Model for RecordSlice<'a, R> {
    ghost use Rattle.std.specs.Prelude.{List};

    ghost Value = { List R };

    ghost view = { λ s. s.records.now };
}

impl<'a, R> RecordSlice<'a, R> {
    /// A maker of all records of a slice, in their order.
    pub fn new(records: &'a [R]) -> RecordSlice<'a, R>
        ensures { result ≡ records.now }
    {
        RecordSlice { records }
    }
}

impl<'a, R: Record> Maker<R> for RecordSlice<'a, R> {
    ghost rest = { λ s. s };

    fn left(&self) -> u64 {
        self.records.len() as u64
    }

    fn part(&self, from: u64, count: u64) -> RecordSlice<'a, R> {
        let records = self.records;
        let skipped = from.min(records.len() as u64) as usize;
        let own = count.min((records.len() - skipped) as u64) as usize;
        RecordSlice {
            records: &records[skipped..skipped + own],
        }
    }

    #[inline]
    fn make(&mut self) -> Option<R> {
        let records = self.records;
        if records.is_empty() {
            return None;
        }
        self.records = &records[1..];
        Some(records[0])
    }
}
