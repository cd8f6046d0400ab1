//! What a pass does to the things that it shares with others, and to its own items.

/// One event of a history. The pass, the buffer and the slot are numbers from 0.
#[derive(Clone, Copy, Debug)]
pub enum Event<R> {
    /// The pass takes a free buffer.
    Take { pass: u32, buffer: u32 },
    /// The pass gives back a buffer that it holds.
    Give { pass: u32, buffer: u32 },
    /// The pass draws the slot whose number is the count of draws so far.
    Draw { pass: u32, slot: u32 },
    /// The pass adds an item to its own.
    Push { pass: u32, item: R },
    /// The pass stores a slot that it drew.
    Store { pass: u32, slot: u32 },
}
