//! Laws of runs.
ghost use Rattle.ppq_handler.specs.Gone.{NobodyFeelsGone};
ghost use Rattle.ppq_handler.specs.Rounds.{RoundsAreTurns};

/// The law of rounds, as a clause for the proof of whoever calls it, and for a reader: to answer all events of one
/// time and then to add what follows is what one turn after the other does. It does nothing.
pub fn round_law()
    ensures { RoundsAreTurns }
{}

/// The law of those who have gone, as a clause like the one above: no other line and no ending tells whether a
/// handler that may retire has retired.
pub fn gone_law()
    ensures { NobodyFeelsGone }
{}
