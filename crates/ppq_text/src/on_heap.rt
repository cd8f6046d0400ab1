//! Room for bytes on the heap.
ghost use Rattle.std.specs.Prelude.{◌≤◌, vec_capacity};

use crate::room::Room;
use ppq_outside::Memory;
use std::alloc::Global;

// How many bytes there is room for: enough that a sink's cost per call is small beside its cost per byte.
const ROOM: usize = 65_536;

/// Room for 65,536 bytes on the heap, which is allocated once.
#[derive(Drop)]
pub struct OnHeap {
    bytes: Vec<u8>,

    ghost capacity: { 65536 ≤ vec_capacity bytes },
}

impl OnHeap {
    /// Allocates it.
    pub fn new(alloc: Global) -> Result<OnHeap, Memory> {
        let bytes = Vec::with_capacity(alloc, ROOM)?;
        Ok(OnHeap { bytes })
    }
}

impl Room for OnHeap {
    const CAPACITY: usize = ROOM;

    ghost CAPACITY = { 65536 };

    ghost held = { λ r. r.bytes.items };

    #[inline]
    fn bytes(&self) -> &[u8] {
        self.bytes.as_slice()
    }

    #[inline]
    fn append(&mut self, text: &[u8]) {
        self.bytes.extend_from_slice(text).unwrap();
    }

    #[inline]
    fn clear(&mut self) {
        self.bytes.clear();
    }
}
