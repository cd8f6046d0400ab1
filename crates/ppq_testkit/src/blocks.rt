//! The blocks of a device in memory.
ghost use Rattle.std.specs.Prelude.{IfOk, map};
ghost use Rattle.ppq_outside.specs.MemoryDevice.{slot_shown};
ghost use Rattle.ppq_queue.specs.Holding.{AreNewSlots};

use ppq_budget::Sizes;
use ppq_outside::{Host, MemRack, MemSlot, Rack};
use ppq_record::{Record, record_laws};
use std::alloc::Global;
use std::test::Fail;

/// The blocks of a device in memory that a queue of these sizes wants over records of the type `R`.
pub fn blocks_of<H: Host, R: Record>(
    rt: &H,
    alloc: Global,
    rack: &mut MemRack,
    sizes: Sizes,
) -> Result<Vec<MemSlot>, Fail>
    ensures { IfOk result (λ slots. AreNewSlots sizes R.WIDTH (map slot_shown slots.items)) }
{
    record_laws::<R>();
    let bytes = sizes.block() as usize * R::WIDTH;
    let mut slots = Vec::new(alloc);
    for number in 0..sizes.blocks() {
        let Ok(slot) = rack.block(rt, alloc, "device", number, bytes) else {
            return Err(Fail::from("no block"));
        };
        slots.push(slot)?;
    }
    Ok(slots)
}
