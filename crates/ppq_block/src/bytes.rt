//! Writing over a part of a slice of bytes.
ghost use Rattle.std.specs.Prelude.{◌≡◌, ◌+◌, ◌-◌, ◌≤◌, ◌++◌, length, take, drop, replicate, cond, All, ◌<◌};

use ppq_record::{Record, record_laws};

// Writes a record over the bytes from a place on.
#[inline]
pub(crate) fn write_at<R: Record>(r: &R, bytes: &mut [u8], at: usize)
    requires { at + R.WIDTH ≤ length bytes.old }
    ensures { bytes.new ≡ take at bytes.old ++ (R.bytes_of r.now ++ drop (at + R.WIDTH) bytes.old) }
{
    record_laws::<R>();
    let part = &mut bytes[at..at + R::WIDTH];
    r.put(part);
}

// Makes the bytes from a place on zeros.
pub(crate) fn zero_from(bytes: &mut [u8], from: usize)
    requires { from ≤ length bytes.old }
    ensures { bytes.new ≡ take from bytes.old ++ replicate (length bytes.old - from) 0 }
{
    bytes[from..].fill(0);
}

// Makes the bytes before a place zeros.
pub(crate) fn zero_to(bytes: &mut [u8], to: usize)
    requires { to ≤ length bytes.old }
    ensures { bytes.new ≡ replicate to 0 ++ drop to bytes.old }
{
    bytes[..to].fill(0);
}

// The first number where the test holds, and else the second.
#[inline]
pub(crate) fn either(first: bool, one: usize, other: usize) -> usize
    ensures { result ≡ cond first one other }
{
    if first { one } else { other }
}

// Does nothing; it promises that bytes are bytes.
#[inline]
pub(crate) fn known_bytes(bytes: &[u8])
    ensures { All (λ x. x < 256) bytes.now }
{
    let _length = bytes.len();
}
