//! What came out of a queue.
use ppq_device::Pair;
use std::fmt;

// What came out of a queue: how many events, whether each was not smaller than the one before, and their numbers in
// order, as one number.
#[derive(Clone, Copy)]
pub(crate) struct Seen {
    count: u64,
    last: Pair,
    ascends: bool,
    order: u64,
}

impl Seen {
    // Nothing so far.
    pub(crate) fn none() -> Self {
        Seen {
            count: 0,
            last: Pair { key: 0, value: 0 },
            ascends: true,
            order: 0,
        }
    }

    // An event more.
    pub(crate) fn add(&mut self, event: Pair) {
        self.count = self.count.saturating_add(1);
        self.ascends &= self.last <= event;
        self.order = self.order.wrapping_mul(31).wrapping_add(event.value);
        self.last = event;
    }

    // The events of these answers more.
    pub(crate) fn add_all(&mut self, answers: &[Option<Pair>]) {
        for answer in answers {
            if let Some(event) = *answer {
                self.add(event);
            }
        }
    }
}

impl fmt::Display for Seen {
    fn fmt<W: fmt::Write>(&self, f: &mut fmt::Formatter<W>) -> fmt::Result {
        let Seen {
            count,
            last: _,
            ascends,
            order,
        } = self;
        write!(
            f,
            "{count} events, in order: {ascends}, their numbers {order}"
        )
    }
}
