//! The law of outcomes and what is reported of them, as the contract of a call that does nothing and costs nothing.
//! It is for the proof of whoever calls it, and for a reader.
ghost use Rattle.std.specs.Prelude.{◌≡◌, ◌↔◌};
ghost use Rattle.ppq_jobs.specs.ppq_engine.declared.end.End.{End};
ghost use Rattle.ppq_cli.specs.Report.{report_of};
ghost use Rattle.ppq_cli.specs.Reported.{bare, HasNumbers};
ghost use Rattle.ppq_cli.specs.Status.{status_of};

/// Two outcomes have one status if and only if they are the same but for the numbers that they name, and no two
/// outcomes have the same report.
#[inline]
pub fn report_laws()
    ensures status { (one other : End) → (status_of one ≡ status_of other) ↔ (bare one ≡ bare other) }
    ensures report { (one other : End) → HasNumbers one → HasNumbers other → report_of one ≡ report_of other → one ≡ other }
{}
