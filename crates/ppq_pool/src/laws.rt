//! The laws of a pool's steps.
ghost use Rattle.ppq_pool.specs.Shown.{StepsAreEvents, LooksAreTrue, NoBlindLook, NoFalseLook, JoinsAreCounted};

/// The law of steps, as a clause for the proof of whoever calls it: a claim of a free item adds one
/// `Take` to the history that words and seats show, a clear adds one `Give`, and no other step but
/// a join changes it. A seat counts the seats that were joined to it, so where none counts any the
/// history stands. It does nothing.
#[inline]
pub fn steps_are_events<T, R>()
    ensures steps { StepsAreEvents T R }
    ensures joins { JoinsAreCounted T }
{}

/// The law of looks, as clauses for the proof of whoever calls it, and for a reader: a look on a
/// seat's trail, which found an item held, was made while somebody held it, at the moment that the
/// seat notes, after all that the seat did before. In a new pool, and later as long as no seats were
/// joined, no step may put a look at an item on a trail while the item is free. So each look that a
/// call put on the trail was made at a step of that call. It does nothing.
#[inline]
pub fn looks_are_true<T>()
    ensures looks { LooksAreTrue T }
    ensures blind { NoBlindLook T }
    ensures never { NoFalseLook T }
{}
