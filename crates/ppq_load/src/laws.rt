//! The law of generated records, as the contract of a call that does nothing and costs nothing. It is for the
//! proof of whoever calls it, and for a reader.
ghost use Rattle.std.specs.Prelude.{◌≡◌, ℕ};
ghost use Rattle.ppq_load.specs.Given.{made_fields};
ghost use Rattle.ppq_load.specs.Sequence.{key_of, AreGenerated};

use ppq_record::{Fields, fields_laws, record_laws};

/// The records of a seed are one sequence: the record with number `i`, from 0 on, has the number of the
/// generator after `i + 1` steps as its first field, `i` as its second and the seed as its third, and zeros
/// behind these, as many fields as a record has. Of more records of a seed, fewer are the first ones.
#[inline]
pub fn generated_laws<R: Fields>()
    ensures sequence { (seed : ℕ) → AreGenerated R.COUNT R.of_fields seed }
    ensures fields { (seed i : ℕ) → R.fields_of (R.of_fields (made_fields R.COUNT (key_of seed i) i seed)) ≡ made_fields R.COUNT (key_of seed i) i seed }
{
    record_laws::<R>();
    fields_laws::<R>();
}
