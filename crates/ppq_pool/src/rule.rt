//! The rule of a pool's table.

use crate::{Hand, Shaped};
use atomic_table::TableRule;
use ppq_table::Place;
use std::snapshot::Snapshot;

// Each item is held by one seat at most. The table is told the items that it begins with.
pub(crate) struct HeldOnce;

impl<T: Shaped> TableRule<Place<T>, Hand<T>, Snapshot<Vec<T>>> for HeldOnce {
    ghost use Rattle.ppq_pool.specs.Hands.{first_hand, common_shape};
    ghost use Rattle.ppq_pool.specs.Rule.{PoolRule};

    ghost holds = { λ items. PoolRule T.shape_of (common_shape T.shape_of items.value.items) };

    ghost first = { λ items. first_hand (common_shape T.shape_of items.value.items) items.value.items };
}
