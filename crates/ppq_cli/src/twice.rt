//! Two executions of one script.
ghost use Rattle.std.specs.Prelude.{◌≡◌, ◌<◌, ◌^◌, IfSome};
ghost use Rattle.ppq_cli.specs.RunWords.{reading};
ghost use Rattle.ppq_cli.specs.Twice.{EndInTurn, RunsTo, WriteTheSame, NameOneScript};
ghost use Rattle.ppq_jobs.specs.ppq_engine.declared.end.End.TheVariants.{Done};

use crate::context::Context;
use crate::whole::run_whole;
use ppq_jobs::End;
use ppq_words::{Gate, Host, Library, Rack, Sink};
use std::alloc::Global;

/// Executes the scripts of two lists of arguments in turn over one library, each with a rack, a gate and a sink of
/// its own, and returns the outcome of the first that was not done, or `Done`.
///
/// It is here for its contract: two executions of one script in one form that both end `Done` write the same
/// bytes, with any sizes of their own, and whatever their gates do. What the second one asks of the library
/// follows from how the first one ended.
pub fn run_twice<
    H: Host,
    L: Library,
    K: Rack,
    O: Sink,
    G: Gate,
    OtherK: Rack,
    OtherO: Sink,
    OtherG: Gate,
>(
    rt: &H,
    alloc: Global,
    words: &[String],
    other_words: &[String],
    library: &mut L,
    rack: &mut K,
    gate: &G,
    out: &mut O,
    other_rack: &mut OtherK,
    other_gate: &OtherG,
    other_out: &mut OtherO,
) -> End
where
    H::Dir: Send,
    K::Slot: Send + Sync,
    OtherK::Slot: Send + Sync,
    requires library { L.faults library.old < 2 ^ 63 }
    requires rack { K.faults rack.old < 2 ^ 63 }
    requires sink { O.faults out.old < 2 ^ 63 }
    requires other_rack { OtherK.faults other_rack.old < 2 ^ 63 }
    requires other_sink { OtherO.faults other_out.old < 2 ^ 63 }
    ensures ends { EndInTurn
        (λ left. RunsTo L.Library K.Rack O.Sink K.Slot.shown words.now library.old left rack.old rack.new out.old out.new)
        (λ left. RunsTo L.Library OtherK.Rack OtherO.Sink OtherK.Slot.shown other_words.now left library.new other_rack.old other_rack.new other_out.old other_out.new)
        (λ left. (library.new ≡ left) × ((other_rack.new ≡ other_rack.old) × (other_out.new ≡ other_out.old)))
        result }
    ensures same { result ≡ Done → K.tells rack.old → OtherK.tells other_rack.old
        → NameOneScript (reading words.now) (reading other_words.now) → IfSome (L.told library.old) (λ _.
        WriteTheSame (O.told out.old) (O.told out.new) (OtherO.told other_out.old) (OtherO.told other_out.new)) }
{
    let context = Context { rt, alloc, gate };
    let first = run_whole(&context, words, library, rack, out);
    match first.end {
        End::Done => {
            let other_context = Context {
                rt,
                alloc,
                gate: other_gate,
            };
            let second = run_whole(&other_context, other_words, library, other_rack, other_out);
            second.end
        }
        end => end,
    }
}
