//! The fields of a line as a command.
ghost use Rattle.std.specs.Prelude.{◌≡◌};
ghost use Rattle.ppq_script.specs.Lines.{fields_of};
ghost use Rattle.ppq_script.specs.Command.{alone, push_of, gen_of, bulk_pop_of, drain_of, bulk_pop_limit_of, bulk_push_of, limit_begin_of, limit_push_of, command_of, many_of, session_of, limit_of};

use crate::fields::next_field;
use crate::numbers::{item, item_and_number, one_number, pass_and_item, two_numbers};
use ppq_record::Fields;

/// What a line of a script asks for. Each command acts on one multiset of records and gives one text. A
/// record is written as its numbers: `K V` here, and `A B C` for records of three.
#[derive(Clone, Copy, Debug, PartialEq, Eq)]
pub enum Command<R> {
    /// `push K V`: adds the record with that key and value.
    Push { item: R },
    /// `pop`: removes the smallest record, if there is one, and prints it.
    Pop,
    /// `top`: prints the smallest record, if there is one, and leaves it in the multiset.
    Top,
    /// `size`: prints how many records are in the multiset.
    Size,
    /// `bulk FILE`: adds the records of a file. The script has its name under this number; the
    /// length, in bytes, is 0 until `check_files` keeps the file's.
    Bulk { file: u32, length: u64 },
    /// `gen SEED N`: adds the first so many records that come of a seed.
    Gen { seed: u64, count: u64 },
    /// `bulk_pop N`: removes the smallest so many records, or all, and prints them.
    BulkPop { count: u64 },
    /// `bulk_pop_limit K V N`: removes the smallest records before this one, at most so many, prints
    /// them, and whether any before it are left.
    BulkPopLimit { limit: R, count: u64 },
    /// `drain N`: removes the smallest so many records, or all, and prints what they sum up to.
    Drain { count: u64 },
    /// `bulk_begin`: begins a bulk session. Until its end only `bulk_push` may stand.
    BulkBegin,
    /// `bulk_push I K V`: in a bulk session, the pass with that number, which is below the number
    /// of workers, takes the record; it joins the multiset when the session ends.
    BulkPush { pass: u32, item: R },
    /// `bulk_end`: ends the bulk session; the multiset gains all records that were pushed in it.
    BulkEnd,
    /// `limit_begin K V`: begins a limit session with that record as its limit. Until its end only
    /// `limit_push`, `limit_top` and `limit_pop` may stand.
    LimitBegin { limit: R },
    /// `limit_push I K V`: in a limit session, the pass with that number, which is below the number
    /// of workers, takes the record, which is not below the limit; it joins the multiset when the session
    /// ends.
    LimitPush { pass: u32, item: R },
    /// `limit_top`: in a limit session, prints the smallest record of the multiset if it is below the limit,
    /// and leaves it there.
    LimitTop,
    /// `limit_pop`: in a limit session, removes the smallest record of the multiset if it is below the
    /// limit, and prints it.
    LimitPop,
    /// `limit_end`: ends the limit session; the multiset gains all records that were pushed in it.
    LimitEnd,
}

// The command, if no field is left.
fn alone<R: Fields>(command: Command<R>, rest: &[u8]) -> Option<Command<R>>
    ensures { result ≡ alone command (fields_of rest.now) }
{
    match next_field(rest) {
        None => Some(command),
        Some(_) => None,
    }
}

// The command that pushes a record.
fn push<R: Fields>(item: Option<R>) -> Option<Command<R>>
    ensures { result ≡ push_of item }
{
    let item = item?;
    Some(Command::Push { item })
}

// The command that makes so many records from a seed.
fn generate<R: Fields>(numbers: Option<(u64, u64)>) -> Option<Command<R>>
    ensures { result ≡ gen_of numbers }
{
    let (seed, count) = numbers?;
    if count > 4_294_967_296 {
        return None;
    }
    Some(Command::Gen { seed, count })
}

// The command that removes so many records and prints them.
fn bulk_pop<R: Fields>(number: Option<u64>) -> Option<Command<R>>
    ensures { result ≡ bulk_pop_of number }
{
    let count = number?;
    Some(Command::BulkPop { count })
}

// The command that removes so many records and sums them up.
fn drain<R: Fields>(number: Option<u64>) -> Option<Command<R>>
    ensures { result ≡ drain_of number }
{
    let count = number?;
    Some(Command::Drain { count })
}

// The command that removes at most so many of the records before one.
fn bulk_pop_limit<R: Fields>(limit: Option<(R, u64)>) -> Option<Command<R>>
    ensures { result ≡ bulk_pop_limit_of limit }
{
    let (limit, count) = limit?;
    Some(Command::BulkPopLimit { limit, count })
}

// The command that pushes a record by a pass of a bulk session.
fn bulk_push<R: Fields>(push: Option<(u32, R)>) -> Option<Command<R>>
    ensures { result ≡ bulk_push_of push }
{
    let (pass, item) = push?;
    Some(Command::BulkPush { pass, item })
}

// The command that pushes a record by a pass of a limit session.
fn limit_push<R: Fields>(push: Option<(u32, R)>) -> Option<Command<R>>
    ensures { result ≡ limit_push_of push }
{
    let (pass, item) = push?;
    Some(Command::LimitPush { pass, item })
}

// The command that begins a session with a record as its limit.
fn limit_begin<R: Fields>(limit: Option<R>) -> Option<Command<R>>
    ensures { result ≡ limit_begin_of limit }
{
    let limit = limit?;
    Some(Command::LimitBegin { limit })
}

// The command of this name of a limit session, whose further fields are those of the rest.
fn read_limit<R: Fields>(name: &[u8], rest: &[u8]) -> Option<Command<R>>
    ensures { result ≡ limit_of R.Fields name.now (fields_of rest.now) }
{
    if name == b"limit_begin".as_slice() {
        return limit_begin(item(rest));
    }
    if name == b"limit_push".as_slice() {
        return limit_push(pass_and_item(rest));
    }
    if name == b"limit_top".as_slice() {
        return alone(Command::LimitTop, rest);
    }
    if name == b"limit_pop".as_slice() {
        return alone(Command::LimitPop, rest);
    }
    if name == b"limit_end".as_slice() {
        return alone(Command::LimitEnd, rest);
    }
    None
}

// The command of this name of a session, whose further fields are those of the rest.
fn read_session<R: Fields>(name: &[u8], rest: &[u8]) -> Option<Command<R>>
    ensures { result ≡ session_of R.Fields name.now (fields_of rest.now) }
{
    if name == b"bulk_begin".as_slice() {
        return alone(Command::BulkBegin, rest);
    }
    if name == b"bulk_push".as_slice() {
        return bulk_push(pass_and_item(rest));
    }
    if name == b"bulk_end".as_slice() {
        return alone(Command::BulkEnd, rest);
    }
    read_limit(name, rest)
}

// The command of this name on many records, but for `bulk`, or of a session, whose further fields
// are those of the rest.
fn read_many<R: Fields>(name: &[u8], rest: &[u8]) -> Option<Command<R>>
    ensures { result ≡ many_of R.Fields name.now (fields_of rest.now) }
{
    if name == b"gen".as_slice() {
        return generate(two_numbers(rest));
    }
    if name == b"bulk_pop".as_slice() {
        return bulk_pop(one_number(rest));
    }
    if name == b"bulk_pop_limit".as_slice() {
        return bulk_pop_limit(item_and_number(rest));
    }
    if name == b"drain".as_slice() {
        return drain(one_number(rest));
    }
    read_session(name, rest)
}

// The command of this name, but for `bulk`, whose further fields are those of the rest.
pub(crate) fn read_command<R: Fields>(name: &[u8], rest: &[u8]) -> Option<Command<R>>
    ensures { result ≡ command_of R.Fields name.now (fields_of rest.now) }
{
    if name == b"push".as_slice() {
        return push(item(rest));
    }
    if name == b"pop".as_slice() {
        return alone(Command::Pop, rest);
    }
    if name == b"top".as_slice() {
        return alone(Command::Top, rest);
    }
    if name == b"size".as_slice() {
        return alone(Command::Size, rest);
    }
    read_many(name, rest)
}
