//! The machine that executes commands.
ghost use Rattle.std.specs.Prelude.{◌≡◌, ◌≤◌, length};
ghost use Rattle.ppq_load.specs.ppq_budget.Sizes.{batch_of};

use crate::desk::Desk;
use ppq_load::Queue;
use ppq_script::{Fields, Slot};

/// A queue, and what commands work with beside it. Each command is a method: those that keep the queue in
/// its place borrow the machine, and those that give it to a session hand the machine back. [`Machine::lend`]
/// runs one command; `run_script` runs those of a script, each from what the one before left.
#[derive(Drop)]
pub struct Machine<S: Slot + Send + Sync, R: Fields + Send + Sync> {
    /// The queue.
    pub queue: Queue<S, R>,
    /// What commands work with beside it.
    pub desk: Desk<R>,

    /// A round of a pop is a block of records for each worker.
    pub ghost round: { desk.list.room ≡ batch_of queue.sizes },

    /// A piece of a file has a record or more.
    pub ghost piece: { R.WIDTH ≤ length desk.room.items },
}
