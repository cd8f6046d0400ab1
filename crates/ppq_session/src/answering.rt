//! Asks answered in turn.
ghost use Rattle.std.specs.Prelude.{◌≡◌, None, IfOk, IfErr, OnOk, vec_capacity};
ghost use Rattle.ppq_pass.specs.ppq_record.Bag.{IsSameBag};
ghost use Rattle.ppq_pass.specs.ppq_outside.Shown.{AllTell};
ghost use Rattle.ppq_pass.specs.ppq_array.Kept.{AreQuiet};
ghost use Rattle.ppq_session.specs.Fronts.{IsFrontRefusal, least_below};
ghost use Rattle.ppq_session.specs.Asks.{left_by, removed_with};
ghost use Rattle.ppq_session.specs.Answering.{MayAnswer, HasAnswered, KeepsFront};

use crate::{Ask, Front};
use ppq_pass::{Gate, Host, QueueFault, Record, Slot, record_laws};

// The answer to an ask.
fn answer_one<H: Host, S: Slot + Send + Sync, R: Record + Send + Sync, G: Gate>(
    rt: &H,
    front: &mut Front<S, R>,
    ask: Ask,
    gate: &G,
) -> Result<Option<R>, QueueFault>
where
    H::Dir: Send,
    ensures answer { IfOk result (λ answer. AllTell front.old.slots → answer ≡ least_below R.Ord.cmp front.old.limit front.old.bag) }
    ensures left { OnOk result (AllTell front.old.slots → IsSameBag front.new.bag (left_by R.Ord.cmp front.old.limit front.old.bag ask)) }
    ensures sound { OnOk result (front.new.failed ≡ None) }
    ensures quiet { OnOk result (AreQuiet front.old.slots front.new.slots) }
    ensures refused { IfErr result (IsFrontRefusal front.old front.new) }
    ensures kept { KeepsFront (removed_with ask result) front.old front.new }
{
    match ask {
        Ask::Top => front.top(rt, gate),
        Ask::Pop => front.pop(rt, gate),
    }
}

// Answers asks in their order, up to the first that meets a fault.
pub fn answer_all<H: Host, S: Slot + Send + Sync, R: Record + Send + Sync, G: Gate>(
    rt: &H,
    front: &mut Front<S, R>,
    asks: &[Ask],
    answers: &mut Vec<Option<R>>,
    gate: &G,
)
where
    H::Dir: Send,
    requires { MayAnswer asks.now answers.old front.old }
    ensures answered { HasAnswered R.Ord.cmp asks.now answers.new.items front.old front.new }
    ensures room { vec_capacity answers.new ≡ vec_capacity answers.old }
{
    record_laws::<R>();
    for i in 0..asks.len() {
        match answer_one(rt, front, asks[i], gate) {
            Ok(answer) => answers.push_reserved(answer),
            Err(_) => return,
        }
    }
}
