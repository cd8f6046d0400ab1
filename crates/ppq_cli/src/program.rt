//! The program over any outside.
ghost use Rattle.std.specs.Prelude.{◌≡◌, ◌≤◌, ◌<◌, ◌^◌, length, IsTrue};
ghost use Rattle.ppq_jobs.specs.ppq_handler.Roster.{places_of};
ghost use Rattle.ppq_cli.specs.Report.{report_of, TakesLine};
ghost use Rattle.ppq_cli.specs.Status.{status_of, writes_nothing, IsReported};
ghost use Rattle.ppq_cli.specs.AllWords.{AllWords};
ghost use Rattle.ppq_cli.specs.RunWords.{OfScript, WritesAll, WritesPart, IsTooLarge, load_by};

use crate::all::all_words;
use crate::reports::report;
use crate::statuses::status;
use ppq_jobs::{End, Handler};
use ppq_words::{Gate, Host, Library, Rack, Sink};
use std::alloc::Global;

/// Reports an outcome, and returns its status. The whole line is taken, or the sink's count of faults
/// rose and a prefix of it was; that changes nothing of the status.
pub fn report_end<H: Host, E: Sink>(rt: &H, end: &End, errors: &mut E) -> u8
    ensures status { result ≡ status_of end.now }
    ensures later { E.faults errors.old ≤ E.faults errors.new }
    ensures line { TakesLine (E.told errors.old) (E.told errors.new) (E.faults errors.old) (E.faults errors.new) (report_of end.now) }
{
    // A report that failed leaves the status as it is: the sink for reports counted the fault.
    let _ = report(rt, end, errors);
    status(end)
}

/// Does what the arguments say, with a roster of handlers for an agenda, reports the outcome, and returns its status.
///
/// All that [`all_words`] promises holds of an outcome, with its blocks, whose number is the status; the
/// line that the sink for reports took is that of the same outcome. So status 0 says that the sink took
/// the script's whole output, the agenda's journal, or the levels of the graph, and that no call of library, rack and
/// sink failed; every other status, that the sink took a prefix of it, and 1, 2, 7 and 10 to 14, that it took nothing.
pub fn run_and_report<H: Host, L: Library, K: Rack, O: Sink, E: Sink, G: Gate>(
    rt: &H,
    alloc: Global,
    words: &[String],
    roster: Vec<Option<Box<dyn Handler + Send>>>,
    library: &mut L,
    rack: &mut K,
    gate: &G,
    out: &mut O,
    errors: &mut E,
) -> u8
where
    H::Dir: Send,
    K::Slot: Send + Sync,
    requires roster { (1 ≤ length roster.items) × (length roster.items ≤ 65536) }
    requires library { L.faults library.old < 2 ^ 63 }
    requires rack { K.faults rack.old < 2 ^ 63 }
    requires sink { O.faults out.old < 2 ^ 63 }

    // All that `all_words` promises, of the outcome whose number is the status and whose line the sink for reports took.
    ensures outcome { IsReported E.Sink errors.old errors.new result (AllWords L.Library K.Rack O.Sink K.Slot.shown words.now (places_of stands roster.items) library.old library.new rack.old rack.new out.old out.new) }

    // What a reader asks first, by the status: it follows from the outcome.
    ensures done { result ≡ 0 → K.tells rack.old → OfScript L.told library.old words.now (WritesAll O.told out.old out.new) }
    ensures part { K.tells rack.old → OfScript L.told library.old words.now (WritesPart O.told out.old out.new) }
    ensures nothing { IsTrue (writes_nothing result) → O.told out.new ≡ O.told out.old }
    ensures above { result ≡ 6 → K.tells rack.old → OfScript L.told library.old words.now (IsTooLarge load_by) }
    ensures errors_later { E.faults errors.old ≤ E.faults errors.new }
{
    let ended = all_words(rt, alloc, words, roster, library, rack, gate, out);
    report_end(rt, &ended.end, errors)
}
