//! Records in the opposite order.
ghost use Rattle.std.specs.Prelude.{not};
ghost use Rattle.std.proofs.Common.{◌∙◌};
ghost use Rattle.std.specs.Cmp.{on_total, back_total, on_po, back_po};
ghost use Rattle.ppq_record.specs.Down.{down, down_take_put, down_same};
ghost use Rattle.ppq_record.specs.FieldsOf.{down_are_fields};

use crate::{Fields, Record};
use std::cmp::Ordering;

/// A record in the opposite order, so that a queue of it hands out the greatest first. Its bytes are those
/// of the record.
#[derive(Clone, Copy, Debug, PartialEq, Eq)]
pub struct Down<R> {
    /// The record.
    pub item: R,
}

impl<R: Record> PartialOrd for Down<R> {
    ghost partial_cmp = { λ x y. R.partial_cmp y.item x.item };

    ghost laws = { on_po (λ d. d.item) (back_po R.PartialEq.laws R.PartialOrd.laws) };

    #[inline]
    fn partial_cmp(&self, other: &Self) -> Option<Ordering> {
        other.item.partial_cmp(&self.item)
    }
}

impl<R: Record> Ord for Down<R> {
    ghost cmp = { λ x y. R.cmp y.item x.item };

    ghost total = { on_total (λ d. d.item) (back_total R.Ord.total) };

    ghost matches_partial_cmp = { λ x y. R.Ord.matches_partial_cmp y.item x.item };

    ghost matches_eq = { λ x y. R.PartialEq.laws.symm x.item y.item ∙ R.Ord.matches_eq y.item x.item };

    #[inline]
    fn cmp(&self, other: &Self) -> Ordering {
        other.item.cmp(&self.item)
    }
}

impl<R: Record> Record for Down<R> {
    const WIDTH: usize = R::WIDTH;

    ghost WIDTH = { R.WIDTH };

    ghost is_value = { λ d. R.is_value d.item };

    ghost bytes_of = { λ d. R.bytes_of d.item };

    ghost record_of = { λ b. down (R.record_of b) };

    fn put(&self, into: &mut [u8]) {
        self.item.put(into);
    }

    fn take(from: &[u8]) -> Self {
        Down {
            item: R::take(from),
        }
    }

    #[inline]
    fn either(is_other: bool, one: Self, other: Self) -> Self {
        Down {
            item: R::either(is_other, one.item, other.item),
        }
    }

    #[inline]
    fn is_less(&self, other: &Self) -> bool {
        other.item.is_less(&self.item)
    }

    fn known(&self) {
        self.item.known();
    }

    ghost bytes_length = { λ d. R.bytes_length d.item };

    ghost take_put = { λ d value. down_take_put d (R.record_of (R.bytes_of d.item)) (R.take_put d.item value) };

    ghost put_take = { R.put_take };

    ghost same = { λ x y e. down_same x y (R.same y.item x.item e) };

    ghost width = { R.width };
}

impl<R: Fields> Fields for Down<R> {
    const COUNT: usize = R::COUNT;

    const DOWN: bool = !R::DOWN;

    ghost COUNT = { R.COUNT };

    ghost DOWN = { not R.DOWN };

    ghost fields_of = { λ d. R.fields_of d.item };

    ghost of_fields = { λ f. down (R.of_fields f) };

    fn of(fields: &[u64]) -> Self {
        Down {
            item: R::of(fields),
        }
    }

    #[inline]
    fn field(&self, i: usize) -> u64 {
        self.item.field(i)
    }

    ghost fields = { down_are_fields R.Fields.fields };
}
