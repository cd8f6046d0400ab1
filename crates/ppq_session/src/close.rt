//! The end of a session's row and pool.
ghost use Rattle.std.specs.Prelude.{◌≡◌};
ghost use Rattle.ppq_session.specs.Closing.{MayClose, IsClosed};

use crate::brought::Brought;
use crate::closed::Closed;
use crate::parts::BulkParts;
use crate::slots::{put_buffers, put_slots};
use ppq_pass::{Record, Shared, Slot};

/// Closes the row and the pool of a session whose seats were joined, and gives the supply the slots and
/// the buffers that are left. Returns what the passes brought besides. `failed` is the number of a slot a
/// call of which failed outside the passes.
pub fn close<S: Slot + Send + Sync, R: Record + Send + Sync>(
    parts: BulkParts<S, R>,
    failed: Option<u32>,
    shared: Shared<S, R>,
) -> (Closed<S, R>, Vec<Brought<S, R>>)
    requires { MayClose S.shown R.WIDTH parts shared }
    ensures closed { IsClosed S.shown parts failed result.0 }
    ensures brought { result.1 ≡ parts.brought }
{
    let BulkParts {
        sizes,
        heaps,
        tree,
        body,
        supply,
        extract,
        sources,
        count,
        peak,
        limited,
        counts,
        slots,
        row_seat,
        pool_seat,
        brought,
    } = parts;
    let Shared { row, pool } = shared;
    let mut supply = supply;
    put_slots(&mut supply, row.close(row_seat));
    put_buffers(&mut supply, pool.close(pool_seat));
    let closed = Closed {
        sizes,
        heaps,
        tree,
        body,
        supply,
        extract,
        sources,
        count,
        peak,
        limited,
        counts,
        failed,
        slots,
    };
    (closed, brought)
}
