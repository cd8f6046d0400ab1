//! A batch of a limit session.
ghost use Rattle.std.specs.Prelude.{◌≡◌, vec_capacity};
ghost use Rattle.ppq_session.specs.Answering.{MayAnswer, HasAnswered};
ghost use Rattle.ppq_session.specs.Batches.{MayPush, Pushed};

use crate::answering::answer_all;
use crate::lines::push_limited;
use crate::{Ask, Front, LimitPass, Line};
use ppq_pass::{Gate, Host, Record, Shared, Slot};
use std::thread::join_mut;

/// Pushes lines to the passes that they name, and answers asks beside them.
///
/// All its references have one lifetime: the toolchain's borrow checker refuses the two closures otherwise.
pub fn run_both<'a, H: Host, S: Slot + Send + Sync, R: Record + Send + Sync, G: Gate>(
    rt: &'a H,
    front: &'a mut Front<S, R>,
    shared: &'a Shared<S, R>,
    passes: &'a mut [LimitPass<S, R>],
    lines: &'a [Line<R>],
    asks: &'a [Ask],
    answers: &'a mut Vec<Option<R>>,
    gate: &'a G,
)
where
    H::Dir: Send,
    requires may { MayPush R.Ord.cmp shared.now lines.now passes.old }
    requires asks { MayAnswer asks.now answers.old front.old }
    ensures pushed { Pushed S.shown lines.now passes.old passes.new }
    ensures answered { HasAnswered R.Ord.cmp asks.now answers.new.items front.old front.new }
    ensures room { vec_capacity answers.new ≡ vec_capacity answers.old }
{
    let mut push = ||
        requires { MayPush R.Ord.cmp shared.now lines.now passes.now }
        ensures { Pushed S.shown lines.entry.now passes.entry.now passes.exit.now }
    { push_limited(rt, gate, shared, lines, passes) };
    let mut answer = ||
        requires { MayAnswer asks.now answers.now front.now }
        ensures { HasAnswered R.Ord.cmp asks.entry.now answers.exit.now.items front.entry.now front.exit.now × (vec_capacity answers.exit.now ≡ vec_capacity answers.entry.now) }
    { answer_all(rt, front, asks, answers, gate) };
    join_mut(rt, &mut push, &mut answer);
}
