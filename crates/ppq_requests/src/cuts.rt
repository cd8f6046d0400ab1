//! Bytes, numbers and records, cut off the bytes of a request.
ghost use Rattle.std.specs.Prelude.{◌≡◌, ◌≤◌, ◌*◌, ◌/◌, option_map, IfSome, length};
ghost use Rattle.ppq_requests.specs.Requests.{cut_of, first_number, first_record, first_records};

use ppq_record::record_laws;
use ppq_script::{Fields, Record};

// The first so many bytes and those behind them, if there are as many.
fn cut(bytes: &[u8], count: usize) -> Option<(&[u8], &[u8])>
    ensures { option_map (λ cut. (cut.0.now, cut.1.now)) result ≡ cut_of count bytes.now }
{
    if bytes.len() < count {
        None
    } else {
        Some(bytes.split_at(count))
    }
}

// A number of eight bytes, the highest first, and what is behind it.
pub(crate) fn cut_number(bytes: &[u8]) -> Option<(u64, &[u8])>
    ensures number { option_map (λ cut. (cut.0, cut.1.now)) result ≡ first_number bytes.now }
    ensures shorter { IfSome result (λ cut. length cut.1.now ≤ length bytes.now) }
{
    let (b, behind) = cut(bytes, 8)?;
    let number = u64::from_be_bytes([b[0], b[1], b[2], b[3], b[4], b[5], b[6], b[7]]);
    Some((number, behind))
}

/// The first record of bytes, and the bytes behind it, if there are as many as a record has.
pub fn cut_record<R: Fields>(bytes: &[u8]) -> Option<(R, &[u8])>
    ensures found { option_map (λ cut. (cut.0, cut.1.now)) result ≡ first_record R.Fields bytes.now }
    ensures value { IfSome result (λ cut. R.is_value cut.0) }
    ensures shorter { IfSome result (λ cut. length cut.1.now ≤ length bytes.now) }
{
    let (b, behind) = cut(bytes, R::WIDTH)?;
    Some((R::take(b), behind))
}

// The bytes of as many records as a number of four bytes says, and what is behind them.
pub(crate) fn cut_records<R: Fields>(bytes: &[u8]) -> Option<(&[u8], &[u8])>
    ensures found { option_map (λ cut. (cut.0.now, cut.1.now)) result ≡ first_records R.WIDTH bytes.now }
    ensures whole { IfSome result (λ cut. length cut.0.now ≡ length cut.0.now / R.WIDTH * R.WIDTH) }
    ensures shorter { IfSome result (λ cut. length cut.1.now ≤ length bytes.now) }
{
    record_laws::<R>();
    let (b, behind) = cut(bytes, 4)?;
    let count = u32::from_be_bytes([b[0], b[1], b[2], b[3]]) as usize;
    cut(behind, count * R::WIDTH)
}
