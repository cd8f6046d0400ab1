//! Records dealt to passes: each worker makes its part of them and adds it to its pass.
ghost use Rattle.std.specs.Prelude.{◌≡◌, ◌<◌, ◌*◌, ◌^◌, ◌↔◌, false, length, All, IsTrue};
ghost use Rattle.std.specs.List.{Any};
ghost use Rattle.std.specs.Fork.{slice_chunk};
ghost use Rattle.ppq_pass.specs.Passed.{IsOf};
ghost use Rattle.ppq_session.specs.Dealing.{IsGoing, HasEnded, MayAdd, Adds, EachAdds, Dealt, part_for};

use crate::Maker;
use crate::going::are_going;
use crate::lines::push_one;
use ppq_pass::{Gate, Host, Pass, Record, Shared, Slot};
use std::thread;

/// Adds all records of a maker. Each pass gets an equal part, and the last ones maybe less. Its worker makes and
/// adds them on a thread of its own, and enters the gate before, also if the part is empty. Whether all records
/// were added.
///
/// A pass stops at its first record that is refused; the others go on with theirs.
pub fn deal<H: Host, S: Slot + Send + Sync, R: Record + Send + Sync, M: Maker<R> + Sync, G: Gate>(
    rt: &H,
    gate: &G,
    shared: &Shared<S, R>,
    maker: &M,
    passes: &mut [Pass<S, R>],
) -> bool
where
    H::Dir: Send,
    requires may { MayAdd shared.now passes.old }
    ensures all { IsTrue result ↔ All IsGoing passes.new }
    ensures ended { result ≡ false → Any HasEnded passes.new }
    ensures dealt { Dealt S.shown (M.rest maker.now) passes.old passes.new }
    ensures each { EachAdds S.shown (part_for (length passes.old) (M.rest maker.now)) passes.old passes.new }
{
    let count = passes.len();
    let part = maker.left().div_ceil(count as u64);
    thread::for_each_mut(
        rt,
        passes,
        count,
        &|worker, pass|
            requires { (worker < 2 ^ 32) × IsOf shared.now pass.now × IsGoing pass.now }
            ensures { Adds S.shown (slice_chunk (M.rest maker.entry.now) part worker) pass.entry.now pass.exit.now }
        {
            gate.enter(worker as u32);
            add_part(rt, shared, maker, part, worker as u64, pass)
        },
    );
    are_going(passes)
}

// Makes a worker's part of a maker's records, and adds them to its pass.
fn add_part<H: Host, S: Slot + Send + Sync, R: Record + Send + Sync, M: Maker<R> + Sync>(
    rt: &H,
    shared: &Shared<S, R>,
    maker: &M,
    part: u64,
    worker: u64,
    pass: &mut Pass<S, R>,
)
where
    H::Dir: Send,
    requires of { IsOf shared.now pass.old }
    requires going { IsGoing pass.old }
    ensures { Adds S.shown (slice_chunk (M.rest maker.now) part worker) pass.old pass.new }
{
    let from = maker.left().min(worker.saturating_mul(part));
    let own = maker.part(from, part);
    add_made(rt, shared, own, pass);
}

// Makes records and adds them to a pass, in their order, up to the first that is refused.
fn add_made<H: Host, S: Slot + Send + Sync, R: Record + Send + Sync, M: Maker<R>>(
    rt: &H,
    shared: &Shared<S, R>,
    maker: M,
    pass: &mut Pass<S, R>,
)
where
    H::Dir: Send,
    requires of { IsOf shared.now pass.old }
    requires going { IsGoing pass.old }
    ensures { Adds S.shown (M.rest maker) pass.old pass.new }
{
    let mut maker = maker;
    'making: while let Some(record) = maker.make() {
        if !push_one(rt, shared, record, pass) {
            return;
        }
    }
}
