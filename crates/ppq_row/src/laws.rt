//! Laws of a row's rule.
ghost use Rattle.ppq_row.specs.Rule.{NeverWraps};
ghost use Rattle.ppq_row.specs.Shown.{StepsAreEvents, NotesAreTrue, JoinsAreCounted};

/// The law of the counter, as a clause for the proof of whoever calls it, and for a reader: it
/// stays below 2^33, however many seats draw and however often. It does nothing.
#[inline]
pub fn counter_never_wraps<T>()
    ensures { NeverWraps T }
{}

/// The law of steps, as a clause for the proof of whoever calls it: a draw that gets an item adds
/// one `Draw` to the history that counter and views show, and no other step but a join changes it
/// (`steps`). Who noted the end is right (`notes`). A seat counts the seats that were joined to it,
/// so where none counts any the history stands (`joins`). It does nothing.
#[inline]
pub fn steps_are_events<T, R>()
    ensures steps { StepsAreEvents T R }
    ensures notes { NotesAreTrue T R }
    ensures joins { JoinsAreCounted T }
{}
