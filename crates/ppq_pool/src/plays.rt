//! The kinds of step, and what each tells the seat that makes it.

use crate::{Hand, Shaped};
use atomic_table::{Join, Play, Split};
use ppq_table::Place;

// The word of an item is exchanged for 1. A free item's place comes into the hands.
pub(crate) struct Claims;

impl<T: Shaped> Play<Place<T>, Hand<T>> for Claims {
    ghost use Rattle.ppq_pool.specs.Rule.{claimed};

    ghost then = { claimed T.shape_of };
}

// The word stays 1, and the empty place goes home.
pub(crate) struct Settles;

impl<T> Play<Place<T>, Hand<T>> for Settles {
    ghost use Rattle.ppq_pool.specs.Rule.{settled};

    ghost then = { settled };
}

// The word stays 1, and the empty place comes into the hands.
pub(crate) struct Reaches;

impl<T> Play<Place<T>, Hand<T>> for Reaches {
    ghost use Rattle.ppq_pool.specs.Rule.{reached};

    ghost then = { reached };
}

// The word is exchanged for 0, and the place goes home with its item.
pub(crate) struct Clears;

impl<T> Play<Place<T>, Hand<T>> for Clears {
    ghost use Rattle.ppq_pool.specs.Rule.{cleared};

    ghost then = { cleared };
}

// One share goes to a new seat.
pub(crate) struct OneShare;

impl<T> Split<Hand<T>> for OneShare {
    ghost use Rattle.ppq_pool.specs.Hands.{less_one, newcomer};

    ghost left = { less_one };

    ghost right = { newcomer };
}

// One seat takes over what the other has.
pub(crate) struct Together;

impl<T> Join<Hand<T>> for Together {
    ghost use Rattle.ppq_pool.specs.Hands.{together, void_hand};

    ghost both = { together };

    ghost spent = { void_hand };
}
