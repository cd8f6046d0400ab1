//! What commands work with beside the queue.
ghost use Rattle.std.specs.Prelude.{◌≡◌, ◌≤◌, [], length, IfOk};
ghost use Rattle.ppq_load.specs.ppq_budget.Sizes.{batch_of};

use ppq_load::{Out, Sizes};
use ppq_record::record_laws;
use ppq_script::{Fields, Memory};
use ppq_text::{Gathered, OnHeap};
use std::alloc::Global;

/// What commands work with beside the queue. The memory for all of it is allocated once: 64 KiB for text, a
/// list of a block of records for each worker, and a piece of a file of as many records.
#[derive(Drop)]
pub struct Desk<R: Fields> {
    /// The records of a round of a pop.
    pub list: Out<R>,
    /// What was printed and not yet put.
    pub gathered: Gathered<OnHeap>,
    /// A piece of a file.
    pub room: Vec<u8>,
}

impl<R: Fields> Desk<R> {
    /// An empty desk, for a queue of these sizes. It allocates all the memory of a desk; `Memory` comes if an
    /// allocation fails.
    pub fn new(alloc: Global, sizes: &Sizes) -> Result<Desk<R>, Memory>
        ensures gathered { IfOk result (λ desk. desk.gathered ≡ []) }
        ensures list { IfOk result (λ desk. desk.list.room ≡ batch_of sizes.now) }
        ensures room { IfOk result (λ desk. R.WIDTH ≤ length desk.room.items) }
    {
        record_laws::<R>();
        let gathered = Gathered::new(OnHeap::new(alloc)?);
        let list = Out::new(alloc, sizes)?;
        let bytes = sizes.batch() as usize * R::WIDTH;
        let room = vec![in alloc; 0u8; bytes]?;
        Ok(Desk {
            list,
            gathered,
            room,
        })
    }
}
