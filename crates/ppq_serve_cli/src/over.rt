//! Answers requests over a device.
ghost use Rattle.std.specs.Prelude.{◌≡◌, ◌≤◌, []};
ghost use Rattle.ppq_words.specs.ServeReading.{as_serve_reading};
ghost use Rattle.ppq_answer.specs.declared.outcome.Outcome.TheVariants.{Ended};
ghost use Rattle.ppq_serve_cli.specs.Over.{Serves, making_end};

use crate::context::Context;
use ppq_answer::{Answered, End, Incoming, Outcome, Source, serve};
use ppq_device::make_blocks;
use ppq_record::record_laws;
use ppq_requests::Fields;
use ppq_words::{Gate, Host, OutsideFault, Rack, ServeArguments, Sink, Slot};
use std::alloc::Global;

// An outcome that comes before a block was made.
pub fn without_blocks<S: Slot>(alloc: Global, outcome: Outcome) -> Answered<S>
    ensures outcome { result.outcome ≡ outcome }
    ensures none { result.blocks.items ≡ [] }
{
    Answered {
        outcome,
        blocks: Vec::new(alloc),
    }
}

// The same of an end.
pub fn unmade<S: Slot>(alloc: Global, end: End) -> Answered<S>
    ensures outcome { result.outcome ≡ Ended end }
    ensures none { result.blocks.items ≡ [] }
{
    without_blocks(alloc, Outcome::Ended { end })
}

// Why a device was not made, as an end.
fn end_of_making(fault: OutsideFault) -> End
    ensures { result ≡ making_end fault }
{
    match fault {
        OutsideFault::Failed => End::NoDevice,
        OutsideFault::Memory => End::Memory,
    }
}

// Makes the device, with blocks for records of this type, and answers requests over it, unless the budget is below its
// fixed part.
pub fn serve_over<R: Fields + Send + Sync, H: Host, I: Source, K: Rack, O: Sink, G: Gate>(
    context: &Context<H, G>,
    arguments: &ServeArguments,
    incoming: &mut Incoming,
    source: &mut I,
    rack: &mut K,
    out: &mut O,
) -> Answered<K::Slot>
where
    H::Dir: Send,
    K::Slot: Send + Sync,
    requires width { 16 ≤ R.WIDTH }
    ensures { Serves R.Fields I.Source K.Rack O.Sink K.Slot.shown (as_serve_reading arguments.now) source.old source.new incoming.old incoming.new rack.old rack.new out.old out.new result }
{
    record_laws::<R>();
    let width = R::WIDTH as u64;
    let sizes = arguments.given.for_width(width);
    if sizes.memory() < sizes.fixed() {
        let need = arguments.given.unit().amount(sizes.fixed(), width);
        return unmade(context.alloc, End::BudgetTooSmall { need });
    }
    let made = make_blocks::<R, H, K>(context.rt, context.alloc, rack, arguments.device, sizes);
    match made {
        Ok(blocks) => serve::<H, K::Slot, R, I, O, G>(
            context.rt,
            context.alloc,
            sizes,
            blocks,
            incoming,
            source,
            out,
            context.gate,
        ),
        Err(fault) => unmade(context.alloc, end_of_making(fault)),
    }
}
