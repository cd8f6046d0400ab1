//! A pass of a session of either kind.
ghost use Rattle.std.specs.Prelude.{◌≡◌, Option};
ghost use Rattle.ppq_pass.specs.Passed.{PassHolding};
ghost use Rattle.ppq_session.specs.SessionPass.{KeepsLimit, SaysIfGoing};

use ppq_pass::{Pass, Record, Slot};

/// A pass of a session of either kind. It knows the record below which it adds none, if there is one.
pub trait SessionPass<S: Slot, R: Record>: Drop {
    /// What contracts see of the pass.
    ghost pass: { Self → PassHolding S R };

    /// The limit of its session, which a bulk session does not have.
    ghost limit: { Self → Option R };

    /// Whether no push of it was refused.
    fn is_going(&self) -> bool
        ensures { SaysIfGoing result (pass self.now) };

    /// The pass alone, for the end of the session.
    fn into_inner(self) -> Pass<S, R>
        ensures pass { result ≡ pass self }
        ensures limit { KeepsLimit S.shown R.Ord.cmp (limit self) result };
}

impl<S: Slot, R: Record> SessionPass<S, R> for Pass<S, R> {
    ghost use Rattle.std.specs.Prelude.{None};

    ghost pass = { λ p. p };

    ghost limit = { λ p. None };

    fn is_going(&self) -> bool {
        if self.refused() {
            return false;
        }
        self.failed().is_none()
    }

    fn into_inner(self) -> Pass<S, R> {
        self
    }
}
