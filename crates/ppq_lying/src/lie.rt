//! Other bytes in the place of those that a block was given.
ghost use Rattle.std.specs.Prelude.{◌≡◌, ◌<◌, Some, length, All};
ghost use Rattle.ppq_checked.specs.Untrusted.{SameOrNoticed};

use ppq_checked::{one_byte_is_noticed, sum};

/// What a read gives in the place of the bytes that a block was given.
#[derive(Drop)]
pub enum Lie {
    /// They have one bit turned, in the byte at this place, from 0. It is no lie if there is no such byte.
    Bit(usize),
    /// What the block was given before, or zeros. It is no lie if both have one sum.
    Older,
    /// These bytes. It is no lie if they are not as many as those of the block, or have the same sum.
    Bytes(Vec<u8>),
}

// Does nothing; it promises that bytes are bytes.
fn known_bytes(bytes: &[u8])
    ensures { All (λ byte. byte < 256) bytes.now }
{
    let _length = bytes.len();
}

// Turns a bit of the byte at a place, if there is one.
fn turn_bit(bytes: &mut [u8], place: usize)
    ensures { SameOrNoticed (Some bytes.old) bytes.new }
{
    if place < bytes.len() {
        known_bytes(bytes);
        one_byte_is_noticed();
        bytes[place] ^= 16;
    }
}

// Writes other bytes over these, unless they are not as many or have the same sum.
fn put_other(bytes: &mut [u8], other: &[u8])
    ensures { SameOrNoticed (Some bytes.old) bytes.new }
{
    if other.len() == bytes.len() && sum(other) != sum(bytes) {
        bytes.copy_from_slice(other);
    }
}

impl Lie {
    // Puts it in the place of the bytes that a block was given, which was given older ones before.
    pub(crate) fn tell(&self, older: &[u8], bytes: &mut [u8])
        ensures { SameOrNoticed (Some bytes.old) bytes.new }
    {
        match self {
            Lie::Bit(place) => turn_bit(bytes, *place),
            Lie::Older => put_other(bytes, older),
            Lie::Bytes(other) => put_other(bytes, other),
        }
    }
}
