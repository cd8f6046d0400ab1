//! The top call of the program.
ghost use Rattle.std.specs.Prelude.{◌≡◌, ◌≤◌, ◌<◌, ◌^◌, length};
ghost use Rattle.ppq_words.specs.Reading.{texts_of};
ghost use Rattle.ppq_jobs.specs.ppq_handler.Roster.{places_of};
ghost use Rattle.ppq_cli.specs.AllWords.{subcommand_of};
ghost use Rattle.ppq_cli.specs.declared.subcommand.Subcommand.TheVariants.{Run, Sim, Sweep};
ghost use Rattle.ppq_cli.specs.RunWords.{RunsWords};
ghost use Rattle.ppq_cli.specs.SimWords.{SimsWords};
ghost use Rattle.ppq_cli.specs.SweepWords.{SweepsWords};

use crate::context::Context;
use crate::sim::sim_words;
use crate::subcommand::{Subcommand, subcommand_of};
use crate::sweep::sweep_words;
use crate::whole::run_whole;
use ppq_jobs::{Ended, Handler};
use ppq_words::{Gate, Host, Library, Rack, Sink};
use std::alloc::Global;

/// Does all that the program does, with the outside and a roster of handlers handed in.
///
/// The first argument names the command. `sim` simulates an agenda, which the handlers of the roster answer, from 1
/// to 65,536 places of them: after `Done` the sink took the journal of the agenda machine, and after every other
/// outcome a prefix of it (`SimsWords` in `specs/SimWords.antt` says all of it). `sweep` sweeps over a graph: after
/// `Done` the sink took the level of each node, a line for each, and after every other outcome a prefix of these lines
/// (`SweepsWords` in `specs/SweepWords.antt` says all of it). With any other, or with none, it is
/// [`run_words`](crate::run_words): all that that promises holds.
pub fn all_words<H: Host, L: Library, K: Rack, O: Sink, G: Gate>(
    rt: &H,
    alloc: Global,
    words: &[String],
    roster: Vec<Option<Box<dyn Handler + Send>>>,
    library: &mut L,
    rack: &mut K,
    gate: &G,
    out: &mut O,
) -> Ended<K::Slot>
where
    H::Dir: Send,
    K::Slot: Send + Sync,
    requires roster { (1 ≤ length roster.items) × (length roster.items ≤ 65536) }
    requires library { L.faults library.old < 2 ^ 63 }
    requires rack { K.faults rack.old < 2 ^ 63 }
    requires sink { O.faults out.old < 2 ^ 63 }
    ensures run { subcommand_of (texts_of words.now) ≡ Run → RunsWords L.Library K.Rack O.Sink K.Slot.shown words.now library.old library.new rack.old rack.new out.old out.new result }
    ensures sim { subcommand_of (texts_of words.now) ≡ Sim → SimsWords L.Library K.Rack O.Sink K.Slot.shown words.now (places_of stands roster.items) library.old library.new rack.old rack.new out.old out.new result }
    ensures sweep { subcommand_of (texts_of words.now) ≡ Sweep → SweepsWords L.Library K.Rack O.Sink K.Slot.shown words.now library.old library.new rack.old rack.new out.old out.new result }
{
    let context = Context { rt, alloc, gate };
    match subcommand_of(words) {
        Subcommand::Run => run_whole(&context, words, library, rack, out),
        Subcommand::Sim => sim_words(&context, words, roster, library, rack, out),
        Subcommand::Sweep => sweep_words(&context, words, library, rack, out),
    }
}
