//! The lists of a round.
ghost use Rattle.std.specs.Prelude.{◌≡◌, ◌<◌, ◌^◌, IfOk};

use ppq_handler::{Outcome, Triple};
use ppq_queue::{Out, Sizes};
use ppq_text::{Gathered, Memory, OnHeap};
use std::alloc::Global;
use std::marker::Model;

// How few events are shared by workers, unless a round never has many more. A handler that does nothing answers so
// many in some 10 microseconds, one that works for a microsecond in a millisecond; three threads cost some 80
// microseconds.
const LEAST_EVENTS: u32 = 1024;

/// The lists of a round, for a queue of some sizes: the events that are taken and what is answered to them, as many
/// as a block for each worker has, and 64 KiB of lines. Contracts see the sizes. They do not count against
/// the queue's budget.
#[derive(Drop)]
pub struct Round {
    // The sizes of the queue.
    sizes: Sizes,
    // The events of the round.
    pub(crate) taken: Out<Triple>,
    // What was answered to them, in the first places; the others are left from earlier rounds.
    pub(crate) answers: Vec<Option<Outcome>>,
    // The lines that were not yet written.
    pub(crate) lines: Gathered<OnHeap>,
}

impl Model for Round {
    ghost use Rattle.std.specs.Prelude.{◌≡◌, length};
    ghost use Rattle.ppq_queue.specs.Sizes.{Numbers, batch_of};

    ghost Value = { Numbers };

    ghost view = { λ r. r.sizes };

    ghost invariant = { λ r. (r.taken.room ≡ batch_of r.sizes) × (length r.answers.items ≡ batch_of r.sizes) };
}

impl Round {
    /// Allocates the lists for a queue of these sizes. `Err` only if memory is wanting.
    pub fn new(alloc: Global, sizes: &Sizes) -> Result<Round, Memory>
        ensures { IfOk result (λ round. round ≡ sizes.now) }
    {
        let taken = Out::new(alloc, sizes)?;
        let answers = vec![in alloc; None; sizes.batch() as usize]?;
        let lines = Gathered::new(OnHeap::new(alloc)?);
        Ok(Round {
            sizes: *sizes,
            taken,
            answers,
            lines,
        })
    }

    // How many workers answer a round.
    pub(crate) fn workers(&self) -> u32
        ensures { (0 < result) × (result < 2 ^ 32) }
    {
        self.sizes.workers()
    }

    // How many events a round has at least that workers share: half of what it can have, if that is fewer than enough
    // for any handler.
    pub(crate) fn least_shared(&self) -> usize {
        (self.sizes.batch() / 2).min(LEAST_EVENTS) as usize
    }
}
