//! Makes the device of a run.
ghost use Rattle.std.specs.Prelude.{◌≡◌, [], length, IfOk, IfErr};
ghost use Rattle.std.specs.List.{range_with_len};
ghost use Rattle.ppq_words.specs.ppq_budget.Sizes.{AreInRange};
ghost use Rattle.ppq_words.specs.ppq_outside.Made.{HasMade};
ghost use Rattle.ppq_cli.specs.Device.{AreMade, RackCounts, made_in, make_end};
ghost use Rattle.ppq_cli.specs.DeviceFor.{IsDevice, LacksDevice};

use crate::context::Context;
use crate::plan::Plan;
use ppq_jobs::{End, Ended};
use ppq_record::record_laws;
use ppq_words::{Gate, Host, OutsideFault, Rack, Record, Slot};
use std::alloc::Global;

/// An outcome that comes before a block was made.
pub fn without_blocks<S: Slot>(alloc: Global, end: End) -> Ended<S>
    ensures end { result.end ≡ end }
    ensures none { result.blocks.items ≡ [] }
{
    Ended {
        end,
        blocks: Vec::new(alloc),
    }
}

/// Makes so many blocks of a device, from block 0 on, of so many bytes each. It takes the memory of
/// their list first. Where one cannot be made, those before it come back with the reason.
fn make_blocks<H: Host, K: Rack>(
    rt: &H,
    alloc: Global,
    rack: &mut K,
    device: &str,
    count: u32,
    bytes: usize,
) -> Result<Vec<K::Slot>, (Vec<K::Slot>, OutsideFault)>
    ensures all { IfOk result (λ blocks. length blocks.items ≡ count) }
    ensures blocks { AreMade K.Slot.shown (K.tells rack.old) count bytes (made_in result) }
    ensures made { HasMade (K.made rack.old device.now) (K.made rack.new device.now) (range_with_len 0 (length (made_in result))) }
    ensures kept { K.tells rack.old → K.tells rack.new }
    ensures counts { RackCounts (K.faults rack.old) (K.faults rack.new) result }
{
    let mut blocks = match Vec::with_capacity(alloc, count as usize) {
        Ok(blocks) => blocks,
        Err(_) => return Err((Vec::new(alloc), OutsideFault::Memory)),
    };
    for number in 0..count {
        match rack.block(rt, alloc, device, number, bytes) {
            Ok(block) => blocks.push_reserved(block),
            Err(fault) => return Err((blocks, fault)),
        }
    }
    Ok(blocks)
}

// Why a device was not made, as an end.
fn end_of_making(fault: OutsideFault) -> End
    ensures { result ≡ make_end fault }
{
    match fault {
        OutsideFault::Failed => End::NoDevice,
        OutsideFault::Memory => End::Memory,
    }
}

/// Makes the device of this name with the blocks of a plan, for records of a type, unless the budget is below the
/// fixed part of a queue; the outcome then has the least budget of the plan. All blocks that were made come back.
pub fn device_for<R: Record, H: Host, K: Rack, G: Gate>(
    context: &Context<H, G>,
    plan: &Plan,
    device: &str,
    rack: &mut K,
) -> Result<Vec<K::Slot>, Ended<K::Slot>>
    ensures made { IfOk result (λ blocks. IsDevice K.Rack K.Slot.shown R.WIDTH plan.now device.now rack.old rack.new blocks.items) }
    ensures unmade { IfErr result (LacksDevice K.Rack K.Slot.shown R.WIDTH plan.now device.now rack.old rack.new) }
    ensures range { AreInRange plan.now.sizes }
{
    record_laws::<R>();
    let sizes = plan.sizes;
    if sizes.memory() < sizes.fixed() {
        let need = plan.need;
        return Err(without_blocks(context.alloc, End::BudgetTooSmall { need }));
    }
    let bytes = sizes.block() as usize * R::WIDTH;
    match make_blocks(context.rt, context.alloc, rack, device, plan.blocks, bytes) {
        Ok(blocks) => Ok(blocks),
        Err((blocks, fault)) => Err(Ended {
            end: end_of_making(fault),
            blocks,
        }),
    }
}
