//! Records whose bytes are numbers of eight bytes.
ghost use Rattle.std.specs.Prelude.{◌≡◌, ◌<◌, List, ℕ, Bool, length, slice_get, Some};
ghost use Rattle.ppq_record.specs.Fields.{AreFields};

use crate::Record;

/// A record that is some numbers, its fields. The first field in which two records differ decides their
/// order, and the bytes are the fields in their order, each in eight bytes, the highest byte first.
pub trait Fields: Record {
    /// How many fields a record has, from 1 to 8: `WIDTH` is 8 times as much.
    const COUNT: usize;

    /// Whether the order goes down: where two records first differ, the one with the greater field is first.
    const DOWN: bool;

    ghost COUNT: { ℕ };

    ghost DOWN: { Bool };

    /// The fields of a record.
    ghost fields_of: { Self → List ℕ };

    /// The record of so many fields.
    ghost of_fields: { List ℕ → Self };

    /// The record of `COUNT` fields.
    fn of(fields: &[u64]) -> Self
        requires { length fields.now ≡ COUNT }
        ensures record { result ≡ of_fields fields.now }
        ensures value { Self.Record.is_value result };

    /// A field, counted from 0.
    fn field(&self, i: usize) -> u64
        requires { i < COUNT }
        ensures { slice_get (fields_of self.now) i ≡ Some result };

    ghost fields: { AreFields COUNT DOWN Self.Record.WIDTH Self.Record.is_value Self.Record.bytes_of Self.Ord.cmp fields_of of_fields };
}

/// The laws of fields, as a clause for the proof of whoever calls it, and for a reader. It does nothing.
#[inline]
pub fn fields_laws<R: Fields>()
    ensures { AreFields R.COUNT R.DOWN R.WIDTH R.is_value R.bytes_of R.Ord.cmp R.fields_of R.of_fields }
{}
