//! A sink that keeps nothing.
ghost use Rattle.std.specs.Prelude.{◌≡◌, [], None};

use ppq_text::{Failed, Gathered, Host, OnHeap, Sink};

// Takes all that is put, and keeps nothing of it.
#[derive(Drop)]
struct Nowhere;

impl Sink for Nowhere {
    ghost told = { λ _. None };

    ghost faults = { λ _. 0 };

    fn faults(&self) -> u64 {
        0
    }

    fn put<H: Host>(&mut self, _rt: &H, _bytes: &[u8]) -> Result<(), Failed> {
        Ok(())
    }
}

// Forgets what an earlier run gathered and could not write.
pub(crate) fn forget<H: Host>(rt: &H, lines: &mut Gathered<OnHeap>)
    ensures { lines.new ≡ [] }
{
    // This sink never fails.
    let _ = lines.put(rt, &mut Nowhere);
}
