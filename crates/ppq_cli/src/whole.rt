//! The top call, with its clauses as one.
ghost use Rattle.std.specs.Prelude.{◌<◌, ◌^◌};
ghost use Rattle.ppq_cli.specs.RunWords.{RunsWords};

use crate::context::Context;
use crate::top_call::run_words;
use ppq_jobs::Ended;
use ppq_words::{Gate, Host, Library, Rack, Sink};

/// Calls `run_words`, and says what it promises in one clause.
pub fn run_whole<H: Host, L: Library, K: Rack, O: Sink, G: Gate>(
    context: &Context<H, G>,
    words: &[String],
    library: &mut L,
    rack: &mut K,
    out: &mut O,
) -> Ended<K::Slot>
where
    H::Dir: Send,
    K::Slot: Send + Sync,
    requires library { L.faults library.old < 2 ^ 63 }
    requires rack { K.faults rack.old < 2 ^ 63 }
    requires sink { O.faults out.old < 2 ^ 63 }
    ensures { RunsWords L.Library K.Rack O.Sink K.Slot.shown words.now library.old library.new rack.old rack.new out.old out.new result }
{
    run_words(
        context.rt,
        context.alloc,
        words,
        library,
        rack,
        context.gate,
        out,
    )
}
