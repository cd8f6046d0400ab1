//! A run over a device that may give back other bytes than it was given.
ghost use Rattle.std.specs.Prelude.{◌≡◌, ◌<◌, ◌^◌};
ghost use Rattle.ppq_jobs.specs.ppq_engine.declared.end.End.TheVariants.{Done};
ghost use Rattle.ppq_cli.specs.RunWords.{OfScript, WritesAll, WritesPart};

use crate::top_call::run_words;
use ppq_checked::{Checked, CheckedRack, UntrustedRack};
use ppq_jobs::Ended;
use ppq_words::{Gate, Host, Library, Sink};
use std::alloc::Global;

/// Does what [`run_words`] does, over a device whose blocks have sums.
///
/// It is here for its contract: the device inside may give back anything but other bytes of the same sum, and the
/// sink took the script's output all the same after `Done`, and a prefix of it after any other outcome. All other
/// clauses of [`run_words`] hold likewise, at this device.
pub fn run_checked<H: Host, L: Library, R: UntrustedRack + Drop, O: Sink, G: Gate>(
    rt: &H,
    alloc: Global,
    words: &[String],
    library: &mut L,
    rack: &mut CheckedRack<R>,
    gate: &G,
    out: &mut O,
) -> Ended<Checked<R::Slot>>
where
    H::Dir: Send,
    R::Slot: Send + Sync,
    requires library { L.faults library.old < 2 ^ 63 }
    requires rack { R.faults rack.old < 2 ^ 63 }
    requires sink { O.faults out.old < 2 ^ 63 }
    ensures done { result.end ≡ Done → R.tells rack.old → OfScript L.told library.old words.now (WritesAll O.told out.old out.new) }
    ensures part { R.tells rack.old → OfScript L.told library.old words.now (WritesPart O.told out.old out.new) }
{
    run_words(rt, alloc, words, library, rack, gate, out)
}
