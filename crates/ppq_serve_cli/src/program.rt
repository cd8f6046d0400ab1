//! The program over any outside.
ghost use Rattle.std.specs.Prelude.{◌≡◌, ◌≤◌, []};
ghost use Rattle.ppq_serve_cli.specs.Answers.{Answers};
ghost use Rattle.ppq_serve_cli.specs.Report.{line_of};
ghost use Rattle.ppq_serve_cli.specs.Status.{status_of, IsReported, TakesLine};

use crate::reports::report;
use crate::statuses::status;
use crate::top_call::serve_words;
use ppq_answer::{Outcome, Source};
use ppq_requests::{Down, Fields, Pair, Triple};
use ppq_words::{Gate, Host, Rack, Sink};
use std::alloc::Global;

/// Reports an outcome, and returns its status. The whole line is taken, or the sink's count of faults rose and a prefix
/// of it was; that changes nothing of the status.
pub fn report_outcome<H: Host, E: Sink>(rt: &H, outcome: &Outcome, errors: &mut E) -> u8
    ensures status { result ≡ status_of outcome.now }
    ensures later { E.faults errors.old ≤ E.faults errors.new }
    ensures line { TakesLine (E.told errors.old) (E.told errors.new) (E.faults errors.old) (E.faults errors.new) (line_of outcome.now) }
{
    // A report that failed leaves the status as it is: the sink for reports counted the fault.
    let _ = report(rt, outcome, errors);
    status(outcome)
}

/// Does what the arguments say, reports the outcome, and returns its status.
pub fn serve_and_report<H: Host, I: Source, K: Rack, O: Sink, E: Sink, G: Gate>(
    rt: &H,
    alloc: Global,
    words: &[String],
    source: &mut I,
    rack: &mut K,
    gate: &G,
    out: &mut O,
    errors: &mut E,
) -> u8
where
    H::Dir: Send,
    K::Slot: Send + Sync,
    requires source { I.gave source.old [] }
    ensures outcome { IsReported E.Sink errors.old errors.new result (Answers ⟦<Pair as Fields>⟧ ⟦<Down<Pair> as Fields>⟧ ⟦<Triple as Fields>⟧ ⟦<Down<Triple> as Fields>⟧ I.Source K.Rack O.Sink K.Slot.shown words.now source.old source.new rack.old rack.new out.old out.new) }
{
    let answered = serve_words(rt, alloc, words, source, rack, gate, out);
    report_outcome(rt, &answered.outcome, errors)
}
