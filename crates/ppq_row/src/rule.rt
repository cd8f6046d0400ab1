//! The rule of a row's table.

use crate::Hand;
use atomic_table::TableRule;
use ppq_table::Place;
use std::snapshot::Snapshot;

// Each item is drawn once. The table is told the items that it begins with.
pub(crate) struct DrawnOnce;

impl<T> TableRule<Place<T>, Hand<T>, Snapshot<Vec<T>>> for DrawnOnce {
    ghost use Rattle.ppq_row.specs.Hands.{first_hand};
    ghost use Rattle.ppq_row.specs.Rule.{RowRule};

    ghost holds = { λ key. RowRule key.value.items };

    ghost first = { λ key. first_hand key.value.items };
}
