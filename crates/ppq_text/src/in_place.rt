//! Room for bytes that takes no memory.

use crate::room::Room;
use arrayvec::ArrayVec;

// How many bytes there is room for.
const ROOM: usize = 4096;

/// Room for 4,096 bytes in place: for a caller that allocates nothing.
#[derive(Drop)]
pub struct InPlace {
    bytes: ArrayVec<u8, ROOM>,
}

impl InPlace {
    /// Nothing is gathered in it.
    pub fn new() -> InPlace {
        InPlace {
            bytes: ArrayVec::new(),
        }
    }
}

impl Room for InPlace {
    const CAPACITY: usize = ROOM;

    ghost CAPACITY = { 4096 };

    ghost held = { λ r. r.bytes.items };

    fn bytes(&self) -> &[u8] {
        self.bytes.as_slice()
    }

    fn append(&mut self, text: &[u8]) {
        self.bytes.try_extend_from_slice(text).unwrap();
    }

    fn clear(&mut self) {
        self.bytes.clear();
    }
}
