//! What was drained.
ghost use Rattle.std.specs.Prelude.{◌≡◌, ◌<◌, ◌+◌, ◌-◌, ◌^◌, ◌∷◌, ◌++◌, [], List};
ghost use Rattle.ppq_engine.specs.Gathers.{IsSummary};

use ppq_record::{fields_laws, record_laws};
use ppq_script::Fields;

/// Records that were drained: how many, the first and the last of them, and the sum of their first
/// fields modulo 2^64.
#[derive(Clone, Copy, Debug, PartialEq, Eq)]
pub struct Drained<R> {
    /// How many there were.
    pub count: u64,
    /// The first in the queue's order, if there was one.
    pub first: Option<R>,
    /// The last.
    pub last: Option<R>,
    /// The sum of their first fields modulo 2^64.
    pub sum: u64,
}

impl<R: Fields> Drained<R> {
    /// No record.
    pub fn nothing() -> Drained<R>
        ensures { IsSummary R.Fields [] result }
    {
        Drained {
            count: 0,
            first: None,
            last: None,
            sum: 0,
        }
    }

    // One record more.
    pub(crate) fn add(self, item: R) -> Drained<R>
        requires { self.count < 2 ^ 64 - 1 }
        ensures count { result.count ≡ self.count + 1 }
        ensures summary { (items : List R) → IsSummary R.Fields items self → IsSummary R.Fields (items ++ item ∷ []) result }
    {
        record_laws::<R>();
        fields_laws::<R>();
        Drained {
            count: self.count + 1,
            first: Some(self.first.unwrap_or(item)),
            last: Some(item),
            sum: self.sum.wrapping_add(item.field(0)),
        }
    }
}
