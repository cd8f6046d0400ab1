//! The fields of a line as numbers and records.
ghost use Rattle.std.specs.Prelude.{◌≡◌, ◌∷◌, [], None, Some, MatchOption, length};
ghost use Rattle.ppq_script.specs.Lines.{fields_of};
ghost use Rattle.ppq_script.specs.Command.{one_of, two_of, numbers_of, first_item, item_of, item_and_count, pass_of};

use crate::digits::number;
use crate::fields::next_field;
use ppq_record::{Fields, fields_laws, record_laws};

// The number that is the only field left.
pub fn one_number(rest: &[u8]) -> Option<u64>
    ensures { result ≡ one_of (fields_of rest.now) }
{
    let first = next_field(rest)?;
    match next_field(first.1) {
        None => number(first.0),
        Some(_) => None,
    }
}

// The numbers that are the two fields left.
pub fn two_numbers(rest: &[u8]) -> Option<(u64, u64)>
    ensures { result ≡ two_of (fields_of rest.now) }
{
    let first = next_field(rest)?;
    let one = number(first.0)?;
    let other = one_number(first.1)?;
    Some((one, other))
}

// The number that is the first field, and what stands behind it.
fn next_number(rest: &[u8]) -> Option<(u64, &[u8])>
    ensures { MatchOption result (numbers_of 1 (fields_of rest.now) ≡ None) (λ cut. numbers_of 1 (fields_of rest.now) ≡ Some (cut.0 ∷ [], fields_of cut.1.now)) }
{
    let first = next_field(rest)?;
    match number(first.0) {
        None => None,
        Some(one) => Some((one, first.1)),
    }
}

// Writes the numbers that are the first fields over all of a slice, and gives what stands behind them.
fn put_numbers<'a>(numbers: &mut [u64], rest: &'a [u8]) -> Option<&'a [u8]>
    ensures { MatchOption result (numbers_of (length numbers.old) (fields_of rest.now) ≡ None) (λ behind. numbers_of (length numbers.old) (fields_of rest.now) ≡ Some (numbers.new, fields_of behind.now)) }
{
    let mut behind = rest;
    for i in 0..numbers.len() {
        let (one, after) = next_number(behind)?;
        numbers[i] = one;
        behind = after;
    }
    Some(behind)
}

// The record that the first fields are, and what stands behind them.
fn next_item<R: Fields>(rest: &[u8]) -> Option<(R, &[u8])>
    ensures { MatchOption result (first_item R.Fields (fields_of rest.now) ≡ None) (λ cut. first_item R.Fields (fields_of rest.now) ≡ Some (cut.0, fields_of cut.1.now)) }
{
    record_laws::<R>();
    fields_laws::<R>();
    let mut room = [0_u64; 8];
    let numbers = &mut room[..R::COUNT];
    let behind = put_numbers(numbers, rest)?;
    Some((R::of(numbers), behind))
}

// The record that is all fields left.
pub fn item<R: Fields>(rest: &[u8]) -> Option<R>
    ensures { result ≡ item_of R.Fields (fields_of rest.now) }
{
    let first = next_item(rest)?;
    match next_field(first.1) {
        None => Some(first.0),
        Some(_) => None,
    }
}

// A record, and the number that is the only field left behind it.
pub fn item_and_number<R: Fields>(rest: &[u8]) -> Option<(R, u64)>
    ensures { result ≡ item_and_count R.Fields (fields_of rest.now) }
{
    let first = next_item(rest)?;
    let count = one_number(first.1)?;
    Some((first.0, count))
}

// The number of a pass, and the record that is all fields left behind it.
pub fn pass_and_item<R: Fields>(rest: &[u8]) -> Option<(u32, R)>
    ensures { result ≡ pass_of R.Fields (fields_of rest.now) }
{
    let first = next_field(rest)?;
    let pass = number(first.0)?;
    let item = item(first.1)?;
    if pass > 4_294_967_295 {
        return None;
    }
    Some((pass as u32, item))
}
