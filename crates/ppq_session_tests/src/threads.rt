//! Two threads of the test's own add equal keys, each to a pass.
ghost use Rattle.std.specs.Prelude.{◌≡◌, All};
ghost use Rattle.ppq_session.specs.ppq_pass.Passed.{IsOf};
ghost use Rattle.ppq_session.specs.BulkSession.{keys_of};

use crate::bulk::Done;
use ppq_outside::MemSlot;
use ppq_session::{Host, Pair, Pass, Shared};
use std::process::Abort;
use std::thread;

// Adds the pairs with the keys from 0 to 99 and a worker's number for their value.
fn push_hundred<H: Host + Abort>(
    rt: &H,
    shared: &Shared<MemSlot, Pair>,
    worker: u64,
    pass: &mut Pass<MemSlot, Pair>,
)
where
    H::Dir: Send,
    requires { IsOf shared.now pass.old }
    ensures { pass.new.key ≡ pass.old.key }
{
    'pushing: for key in 0..100 {
        let record = Pair { key, value: worker };
        assert!(rt; pass.push(rt, shared, record).is_ok());
    }
}

// Adds a hundred pairs to each of two passes, each on a thread of its own.
fn push_all<H: Host + Abort>(
    rt: &H,
    shared: &Shared<MemSlot, Pair>,
    passes: &mut [Pass<MemSlot, Pair>],
)
where
    H::Dir: Send,
    requires { All (IsOf shared.now) passes.old }
    ensures { keys_of passes.new ≡ keys_of passes.old }
{
    thread::for_each_mut(
        rt,
        passes,
        2,
        &|worker, pass|
            requires { IsOf shared.now pass.now }
            ensures { pass.exit.now.key ≡ pass.entry.now.key }
        { push_hundred(rt, shared, worker as u64, pass) },
    );
}

/// Adds the pairs with the keys from 0 to 99 to each of two passes, on threads of the test's own.
pub fn push_hundreds<H: Host + Abort>(
    rt: &H,
    shared: &Shared<MemSlot, Pair>,
    passes: &mut [Pass<MemSlot, Pair>],
) -> Done
where
    H::Dir: Send,
    requires { All (IsOf shared.now) passes.old }
    ensures { keys_of passes.new ≡ keys_of passes.old }
{
    assert!(rt; passes.len() == 2);
    push_all(rt, shared, passes);
    Done {
        taken: true,
        accepted: (passes[0].accepted(), passes[1].accepted()),
    }
}
