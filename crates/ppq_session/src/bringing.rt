//! Passes that come back.
ghost use Rattle.std.specs.Prelude.{◌≡◌, [], ◌∷◌, map, reverse, All, vec_capacity};
ghost use Rattle.ppq_session.specs.Bringing.{MayBring, BroughtAll};
ghost use Rattle.ppq_session.specs.SessionPass.{KeepsLimit};

use crate::brought::Brought;
use crate::parts::BulkParts;
use crate::session_pass::SessionPass;
use ppq_pass::{Pass, PassHeld, PassParts, Record, Shared, Slot};
use std::snapshot::Snapshot;

/// Takes all passes apart, the last first, and joins their seats.
pub fn bring_all<S: Slot + Send + Sync, R: Record + Send + Sync, P: SessionPass<S, R>>(
    parts: &mut BulkParts<S, R>,
    shared: &Shared<S, R>,
    passes: Vec<P>,
)
    requires { MayBring shared.now parts.old (map P.pass passes.items) }
    ensures brought { BroughtAll S.shown R.record_of R.WIDTH parts.old.sizes R.Ord.cmp (reverse (map P.pass passes.items)) parts.old parts.new }
    ensures limits { All (λ p. KeepsLimit S.shown R.Ord.cmp (P.limit p) (P.pass p)) passes.items }
{
    let mut passes = passes;
    'bringing: while let Some(pass) = passes.pop() {
        bring(parts, shared, pass.into_inner());
    }
}

// Takes a pass apart, and joins its seats.
fn bring<S: Slot + Send + Sync, R: Record + Send + Sync>(
    parts: &mut BulkParts<S, R>,
    shared: &Shared<S, R>,
    pass: Pass<S, R>,
)
    requires { MayBring shared.now parts.old (pass ∷ []) }
    ensures brought { BroughtAll S.shown R.record_of R.WIDTH parts.old.sizes R.Ord.cmp (pass ∷ []) parts.old parts.new }
    ensures capacity { vec_capacity parts.new.brought ≡ vec_capacity parts.old.brought }
{
    let PassHeld {
        heap,
        body,
        parts: held,
        begun,
        accepted,
        stores,
        refused,
        failed,
    } = pass.into_parts();
    let kept = Snapshot::of(&held);
    let PassParts {
        row_seat,
        stash,
        pool_seat,
        ..
    } = held;
    shared.row.join(&mut parts.row_seat, row_seat);
    shared.pool.join(&mut parts.pool_seat, pool_seat);
    parts.brought.push_reserved(Brought {
        heap,
        body,
        stash,
        kept,
        begun,
        accepted,
        stores,
        refused,
        failed,
    });
}
