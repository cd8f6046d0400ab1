//! Requests: operations, one behind the other.
ghost use Rattle.std.specs.Prelude.{◌≡◌, ◌<◌, option_map, is_some, IfSome, length};
ghost use Rattle.ppq_requests.specs.Requests.{first_operation, commands_of, request_of, IsWhole};

use crate::Operation;
use crate::cuts::{cut_number, cut_record, cut_records};
use ppq_script::Fields;

/// The first operation of a request, and what is behind it, if the bytes begin with one. The bytes of its
/// records are borrowed.
pub fn cut_operation<R: Fields>(bytes: &[u8]) -> Option<(Operation<'_, R>, &[u8])>
    ensures operation { option_map (λ cut. (commands_of R.Fields cut.0, cut.1.now)) result ≡ first_operation R.Fields bytes.now }
    ensures whole { IfSome result (λ cut. IsWhole R.Fields cut.0) }
    ensures shorter { IfSome result (λ cut. length cut.1.now < length bytes.now) }
{
    let (letter, behind) = bytes.split_first()?;
    match *letter {
        b'+' => {
            let (item, behind) = cut_record::<R>(behind)?;
            Some((Operation::Push { item }, behind))
        }
        b'P' => {
            let (records, behind) = cut_records::<R>(behind)?;
            Some((Operation::PushMany { records }, behind))
        }
        b'p' => Some((Operation::Pop, behind)),
        b't' => Some((Operation::Top, behind)),
        b'n' => {
            let (count, behind) = cut_number(behind)?;
            Some((Operation::BulkPop { count }, behind))
        }
        b'b' => {
            let (limit, behind) = cut_record::<R>(behind)?;
            let (count, behind) = cut_number(behind)?;
            Some((Operation::BulkPopLimit { limit, count }, behind))
        }
        _ => None,
    }
}

/// Whether these bytes are a request: operations, one behind the other, up to their end. Costs a step an
/// operation, whatever its records are.
pub fn is_request<R: Fields>(bytes: &[u8]) -> bool
    ensures { result ≡ is_some (request_of R.Fields bytes.now) }
{
    let mut rest = bytes;
    'operations: while !rest.is_empty() {
        match cut_operation::<R>(rest) {
            Some((_operation, behind)) => rest = behind,
            None => return false,
        }
    }
    true
}
