//! What some records add up to.
use ppq_device::Pair;

// What some records add up to.
#[derive(Clone, Copy)]
pub(crate) struct Removed {
    // How many there are.
    pub(crate) count: u64,
    // The first of them.
    pub(crate) first: Pair,
    // The last of them.
    pub(crate) last: Pair,
    // The sum of their keys, modulo 2^64.
    pub(crate) sum: u64,
}

impl Removed {
    // No record.
    pub(crate) fn none() -> Self {
        let none = Pair { key: 0, value: 0 };
        Removed {
            count: 0,
            first: none,
            last: none,
            sum: 0,
        }
    }

    // With one record more.
    pub(crate) fn with(self, item: Pair) -> Self {
        Removed {
            count: self.count.saturating_add(1),
            first: if self.count == 0 { item } else { self.first },
            last: item,
            sum: self.sum.wrapping_add(item.key),
        }
    }

    // With these records more.
    pub(crate) fn with_all(self, items: &[Pair]) -> Self {
        let mut removed = self;
        for item in items {
            removed = removed.with(*item);
        }
        removed
    }

    // With the records of these answers more.
    pub(crate) fn with_answers(self, answers: &[Option<Pair>]) -> Self {
        let mut removed = self;
        for answer in answers {
            if let Some(item) = *answer {
                removed = removed.with(item);
            }
        }
        removed
    }
}
