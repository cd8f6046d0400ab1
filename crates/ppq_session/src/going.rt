//! Whether passes go on.
ghost use Rattle.std.specs.Prelude.{◌≡◌, ◌↔◌, false, All, IsTrue};
ghost use Rattle.std.specs.List.{Any};
ghost use Rattle.ppq_session.specs.Dealing.{IsGoing, HasEnded};

use crate::LimitPass;
use crate::session_pass::SessionPass;
use ppq_pass::{Pass, Record, Slot};

/// Whether no push of any pass was refused.
pub fn are_going<S: Slot + Send + Sync, R: Record + Send + Sync>(passes: &[Pass<S, R>]) -> bool
    ensures all { IsTrue result ↔ All IsGoing passes.now }
    ensures ended { result ≡ false → Any HasEnded passes.now }
{
    all_going::<S, R, Pass<S, R>>(passes)
}

/// Whether no push of any pass of a limit session was refused.
pub fn limited_are_going<S: Slot + Send + Sync, R: Record + Send + Sync>(
    passes: &[LimitPass<S, R>],
) -> bool
    ensures all { IsTrue result ↔ All (λ p. IsGoing p.pass) passes.now }
    ensures ended { result ≡ false → Any (λ p. HasEnded p.pass) passes.now }
{
    all_going::<S, R, LimitPass<S, R>>(passes)
}

// The same of passes of either kind.
fn all_going<S: Slot, R: Record, P: SessionPass<S, R>>(passes: &[P]) -> bool
    ensures all { IsTrue result ↔ All (λ p. IsGoing (P.pass p)) passes.now }
    ensures ended { result ≡ false → Any (λ p. HasEnded (P.pass p)) passes.now }
{
    for i in 0..passes.len() {
        if !passes[i].is_going() {
            return false;
        }
    }
    true
}
