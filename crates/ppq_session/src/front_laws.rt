//! Why what a front returns is the smallest of all records of its session: those of the passes stand back.
ghost use Rattle.std.specs.Prelude.{◌≡◌, None, All};
ghost use Rattle.ppq_pass.specs.ppq_outside.Shown.{AllTell};
ghost use Rattle.ppq_session.specs.Fronts.{StandBack, HighStandBack};
ghost use Rattle.ppq_session.specs.LimitSession.{AreLimited, limited_bag};

use crate::{Front, LimitPass};
use ppq_pass::{Record, Slot, record_laws};

/// The law of records that are not below a limit, as a clause for the proof of whoever calls it, and for
/// a reader: whatever multiset they are added to, its smallest record below the limit stays the same, they
/// are among what is left without it, and no more records are below the limit. It does nothing.
#[inline]
pub fn high_records_stand_back<R: Record>()
    ensures { HighStandBack R.Ord.cmp }
{
    record_laws::<R>();
}

/// The same of a session: where slots tell and no call of a slot of a pass failed, the records of all
/// passes stand back beside those of the front. So what [`Front::top`] and [`Front::pop`] return of the
/// front is the smallest record below the limit of all that the session has, and what a pop leaves of the
/// front is, with the passes' records, what is left of all. It does nothing.
#[inline]
pub fn passes_stand_back<S: Slot + Send + Sync, R: Record + Send + Sync>(
    front: &Front<S, R>,
    passes: &[LimitPass<S, R>],
)
    requires { AreLimited front.now passes.now }
    ensures { AllTell front.now.slots → All (λ p. p.pass.failed ≡ None) passes.now → StandBack R.Ord.cmp front.now.limit front.now.bag (limited_bag passes.now) }
{
    high_records_stand_back::<R>();
    front.known();
    for i in 0..passes.len() {
        passes[i].known();
    }
}
