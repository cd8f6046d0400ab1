//! The kinds of step, and what each tells the seat that makes it.

use crate::Hand;
use atomic_table::{Join, Play, Split};
use ppq_table::Place;

// One fetch-add of the counter.
pub(crate) struct Draws;

impl<T> Play<Place<T>, Hand<T>> for Draws {
    ghost use Rattle.ppq_row.specs.Rule.{draw_tells};

    ghost then = { draw_tells };
}

// One share goes to a new seat.
pub(crate) struct OneShare;

impl<T> Split<Hand<T>> for OneShare {
    ghost use Rattle.ppq_row.specs.Hands.{less_one, newcomer};

    ghost left = { less_one };

    ghost right = { newcomer };
}

// A new seat gets all that the old one knows. The slots that are out stay with the old one.
pub(crate) struct Moved;

impl<T> Split<Hand<T>> for Moved {
    ghost use Rattle.ppq_row.specs.Hands.{moved, void_hand};

    ghost left = { λ v. void_hand };

    ghost right = { moved };
}

// One seat takes over what the other knows.
pub(crate) struct Together;

impl<T> Join<Hand<T>> for Together {
    ghost use Rattle.ppq_row.specs.Hands.{together, void_hand};

    ghost both = { together };

    ghost spent = { void_hand };
}
