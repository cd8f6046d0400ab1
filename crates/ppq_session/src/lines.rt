//! Lines pushed to the passes that they name, each pass on a thread of its own.
ghost use Rattle.std.specs.Prelude.{◌≡◌, ◌<◌, ◌^◌, ◌↔◌, false, length, All, IsTrue, [], ◌∷◌};
ghost use Rattle.std.specs.List.{Any};
ghost use Rattle.ppq_pass.specs.Passed.{IsOf};
ghost use Rattle.ppq_session.specs.Dealing.{IsGoing, HasEnded, MayAdd, Adds, EachAdds, Dealt, records_in, records_for};
ghost use Rattle.ppq_session.specs.SessionPass.{Takes, SaysIfGoing};
ghost use Rattle.ppq_session.specs.Batches.{AreAbove, MayPush, Pushed};

use crate::LimitPass;
use crate::going::are_going;
use crate::line::Line;
use ppq_pass::{Gate, Host, Pass, Record, Shared, Slot};
use std::thread;

/// Pushes the record of each line to the pass that the line names: each pass pushes those of its lines,
/// in their order, on a thread of its own, after its worker has entered the gate, also where no line
/// names it. Whether all records were added.
///
/// A pass stops at its first record that is refused; the others go on with theirs. Each worker looks at
/// all lines.
pub fn push_lines<H: Host, S: Slot + Send + Sync, R: Record + Send + Sync, G: Gate>(
    rt: &H,
    gate: &G,
    shared: &Shared<S, R>,
    lines: &[Line<R>],
    passes: &mut [Pass<S, R>],
) -> bool
where
    H::Dir: Send,
    requires may { MayAdd shared.now passes.old }
    requires named { All (λ line. line.pass < length passes.old) lines.now }
    ensures all { IsTrue result ↔ All IsGoing passes.new }
    ensures ended { result ≡ false → Any HasEnded passes.new }
    ensures dealt { Dealt S.shown (records_in lines.now) passes.old passes.new }
    ensures each { EachAdds S.shown (λ pass. records_for pass lines.now) passes.old passes.new }
{
    let count = passes.len();
    thread::for_each_mut(
        rt,
        passes,
        count,
        &|worker, pass|
            requires { (worker < 2 ^ 32) × IsOf shared.now pass.now × IsGoing pass.now }
            ensures { Adds S.shown (records_for worker lines.entry.now) pass.entry.now pass.exit.now }
        {
            gate.enter(worker as u32);
            push_named(rt, shared, lines, worker as u32, pass);
        },
    );
    are_going(passes)
}

// The same of the passes of a limit session.
pub fn push_limited<H: Host, S: Slot + Send + Sync, R: Record + Send + Sync, G: Gate>(
    rt: &H,
    gate: &G,
    shared: &Shared<S, R>,
    lines: &[Line<R>],
    passes: &mut [LimitPass<S, R>],
)
where
    H::Dir: Send,
    requires { MayPush R.Ord.cmp shared.now lines.now passes.old }
    ensures { Pushed S.shown lines.now passes.old passes.new }
{
    let count = passes.len();
    thread::for_each_mut(
        rt,
        passes,
        count,
        &|worker, pass|
            requires { (worker < 2 ^ 32) × AreAbove R.Ord.cmp pass.now.limit lines.now × IsOf shared.now pass.now.pass × IsGoing pass.now.pass }
            ensures { Adds S.shown (records_for worker lines.entry.now) pass.entry.now.pass pass.exit.now.pass × (pass.exit.now.limit ≡ pass.entry.now.limit) }
        {
            gate.enter(worker as u32);
            pass.push_named(rt, shared, lines, worker as u32);
        },
    );
}

// Pushes the records of the lines that name a pass to it, up to the first that is refused.
pub fn push_named<H: Host, S: Slot + Send, R: Record + Send>(
    rt: &H,
    shared: &Shared<S, R>,
    lines: &[Line<R>],
    number: u32,
    pass: &mut Pass<S, R>,
)
where
    H::Dir: Send,
    requires of { IsOf shared.now pass.old }
    requires going { IsGoing pass.old }
    ensures { Takes S.shown R.Ord.cmp (records_for number lines.now) pass.old pass.new }
{
    for i in 0..lines.len() {
        if !push_line(rt, shared, lines[i], number, pass) {
            return;
        }
    }
}

// Pushes a line's record to a pass, if the line names it. Whether it was not refused.
fn push_line<H: Host, S: Slot + Send, R: Record + Send>(
    rt: &H,
    shared: &Shared<S, R>,
    line: Line<R>,
    number: u32,
    pass: &mut Pass<S, R>,
) -> bool
where
    H::Dir: Send,
    requires of { IsOf shared.now pass.old }
    requires going { IsGoing pass.old }
    ensures takes { Takes S.shown R.Ord.cmp (records_for number (line ∷ [])) pass.old pass.new }
    ensures says { SaysIfGoing result pass.new }
{
    if line.pass != number {
        return true;
    }
    push_one(rt, shared, line.record, pass)
}

// Pushes a record to a pass. Whether it was not refused.
pub fn push_one<H: Host, S: Slot + Send, R: Record + Send>(
    rt: &H,
    shared: &Shared<S, R>,
    r: R,
    pass: &mut Pass<S, R>,
) -> bool
where
    H::Dir: Send,
    requires of { IsOf shared.now pass.old }
    requires going { IsGoing pass.old }
    ensures takes { Takes S.shown R.Ord.cmp (r ∷ []) pass.old pass.new }
    ensures says { SaysIfGoing result pass.new }
{
    match pass.push(rt, shared, r) {
        Ok(()) => true,
        Err(_) => false,
    }
}
