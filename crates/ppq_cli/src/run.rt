//! Executes a script over a device.
ghost use Rattle.std.specs.Prelude.{◌≡◌, ◌≤◌, ℕ, List, Option, Some, IsTrue, map};
ghost use Rattle.ppq_jobs.specs.ppq_engine.Output.{KeepsLengths};
ghost use Rattle.ppq_jobs.specs.ppq_engine.Files.{IsReadInScript};
ghost use Rattle.ppq_cli.specs.Outside.{OutsideKept};
ghost use Rattle.ppq_cli.specs.RunOver.{RunWrites, RunTransfers, RunEnds};
ghost use Rattle.ppq_cli.specs.RunWords.{device_named, blocks_given};
ghost use Rattle.ppq_words.specs.ppq_outside.Told.{Rose, RepliesOnly};
ghost use Rattle.ppq_words.specs.Reading.{as_reading, sizes_at};

use crate::context::Context;
use crate::device::device_for;
use crate::plan::plan_for;
use ppq_jobs::{Ended, run_script};
use ppq_words::{Fields, Gate, Host, Library, Rack, RunArguments, Script, Sink};

/// Makes the device, with blocks for the script's records, and executes a checked script over it, unless the
/// budget is below its fixed part; the outcome then has that part in the unit of the budget. A record has at
/// least 16 bytes, so a budget in bytes stays in its range. All blocks that were made come back.
pub fn run_over<R: Fields + Send + Sync, H: Host, L: Library, K: Rack, O: Sink, G: Gate>(
    context: &Context<H, G>,
    script: &Script<R>,
    arguments: &RunArguments,
    library: &mut L,
    rack: &mut K,
    out: &mut O,
) -> Ended<K::Slot>
where
    H::Dir: Send,
    K::Slot: Send + Sync,
    requires width { 16 ≤ R.WIDTH }
    requires checked { IsTrue script.now.checked }
    requires workers { script.now.workers ≡ arguments.now.given.numbers.workers }
    requires lengths { (files : List ℕ → Option (List ℕ)) → L.told library.old ≡ Some files → KeepsLengths files script.now }

    // What is written and when each end comes, by the files that the library tells, or any where the script reads none; what is said of the
    // outside; and that the library was asked for no more than the script reads.
    ensures written { RunWrites R.Fields (K.tells rack.old) (L.told library.old) (O.told out.old) (O.told out.new) (as_reading arguments.now) script.now (map K.Slot.shown result.blocks.items) result.end }
    ensures outside { OutsideKept Rose L.Library K.Rack O.Sink K.Slot.shown (Some (as_reading arguments.now)) device_named blocks_given library.old library.new rack.old rack.new out.old out.new result }
    ensures transfers { RunTransfers R.Fields (sizes_at R.WIDTH (as_reading arguments.now)) script.now (map K.Slot.shown result.blocks.items) }
    ensures asks { RepliesOnly (L.replied library.old) (L.replied library.new) (IsReadInScript script.now) }
    ensures ends { RunEnds R.Fields (L.told library.old) (L.replied library.new) (as_reading arguments.now) script.now result.end }
{
    let plan = plan_for::<R>(&arguments.given);
    match device_for::<R, H, K, G>(context, &plan, arguments.device, rack) {
        Ok(blocks) => run_script(
            context.rt,
            context.alloc,
            script,
            plan.sizes,
            blocks,
            library,
            out,
            context.gate,
            arguments.form,
        ),
        Err(ended) => ended,
    }
}
