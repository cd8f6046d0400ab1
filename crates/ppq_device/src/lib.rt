//! What a program opens a queue with: the blocks of a device, and the names of the queue's own types.
//!
//! [`make_blocks`] makes the blocks over any rack: a device file (`ppq_edge`), a device in memory (`ppq_outside`), and
//! over either the rack whose blocks notice when what is read is not what was written (`ppq_checked`). What it
//! promises of them is what [`Queue::open`] asks of its caller, so a program that calls one and then the other needs
//! no clause and no proof of its own.
#![tactic(auto)]

ghost use Rattle.std.specs.Prelude.{◌≡◌, map, IfOk, OnOk};
ghost use Rattle.std.specs.List.{range_with_len};
ghost use Rattle.ppq_queue.specs.ppq_outside.Told.{HasCause};
ghost use Rattle.ppq_queue.specs.ppq_outside.Shown.{Shown, AllTell};
ghost use Rattle.ppq_queue.specs.ppq_outside.Made.{HasMade};
ghost use Rattle.ppq_queue.specs.Holding.{AreNewSlots};

pub use ppq_queue::{
    Host, LimitEnd, OpenFault, OpenGate, Out, OutsideFault, Pair, Queue, QueueFault, Rack, Record,
    Sizes, Slot,
};
use ppq_record::record_laws;
pub use ppq_record::{Down, Triple};
use std::alloc::Global;

/// All blocks of a device with this name, numbered from 0 in the order of the list, each with room for
/// `sizes.block()` records of the type `R`. It allocates the list, and makes one call of the rack a block.
///
/// `Failed` is returned only if the rack's count of faults rose, as when the device file cannot be created; `Memory`
/// only if an allocation failed. The blocks that were made before are dropped then.
pub fn make_blocks<R: Record, H: Host, K: Rack>(
    rt: &H,
    alloc: Global,
    rack: &mut K,
    device: &str,
    sizes: Sizes,
) -> Result<Vec<K::Slot>, OutsideFault>
    ensures new { IfOk result (λ blocks. AreNewSlots sizes R.WIDTH (map K.Slot.shown blocks.items)) }
    ensures numbers { IfOk result (λ blocks. map (λ (slot : Shown). slot.number) (map K.Slot.shown blocks.items) ≡ range_with_len 0 sizes.blocks) }
    ensures tell { IfOk result (λ blocks. K.tells rack.old → AllTell (map K.Slot.shown blocks.items)) }
    ensures made { OnOk result (HasMade (K.made rack.old device.now) (K.made rack.new device.now) (range_with_len 0 sizes.blocks)) }
    ensures kept { K.tells rack.old → K.tells rack.new }
    ensures cause { HasCause (K.faults rack.old) (K.faults rack.new) result }
{
    record_laws::<R>();
    let mut blocks = Vec::with_capacity(alloc, sizes.blocks() as usize)?;
    let bytes = sizes.block() as usize * R::WIDTH;
    'making: for number in 0..sizes.blocks() {
        match rack.block(rt, alloc, device, number, bytes) {
            Ok(block) => blocks.push_reserved(block),
            Err(fault) => return Err(fault),
        }
    }
    Ok(blocks)
}
