//! What a run works with beside the queue.
ghost use Rattle.std.specs.Prelude.{◌≡◌, ◌≤◌, length, IfOk};

use ppq_engine::Memory;
use ppq_event::{Round, Sizes};
use std::alloc::Global;

// How many bytes an event has in a file.
const WIDTH: usize = 24;

// What a run works with beside the queue. The memory for all of it is allocated once.
#[derive(Drop)]
pub(crate) struct Desk {
    // The lists of a round.
    pub(crate) round: Round,
    // A piece of the file: as many records as each worker has a block.
    pub(crate) piece: Vec<u8>,
}

impl Desk {
    // A desk for a queue of these sizes.
    pub(crate) fn new(alloc: Global, sizes: &Sizes) -> Result<Desk, Memory>
        ensures round { IfOk result (λ desk. desk.round ≡ sizes.now) }
        ensures piece { IfOk result (λ desk. 24 ≤ length desk.piece.items) }
    {
        let round = Round::new(alloc, sizes)?;
        let bytes = sizes.batch() as usize * WIDTH;
        let piece = vec![in alloc; 0u8; bytes]?;
        Ok(Desk { round, piece })
    }
}
