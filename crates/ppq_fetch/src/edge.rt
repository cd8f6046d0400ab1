//! How far records are safe.
ghost use Rattle.std.specs.Prelude.{◌≡◌};
ghost use Rattle.ppq_fetch.specs.Edges.{edge_of};

use ppq_array::Record;

// Up to where records may be given.
#[derive(Clone, Copy)]
pub(crate) enum Edge<R> {
    // All of them.
    Whole,
    // Those that are not after this one.
    AtMost(R),
    // Those that are before this one.
    Below(R),
}

// The edge by the first record that is not loaded, and a limit.
pub(crate) fn choose_edge<R: Record>(first: Option<R>, below: Option<R>) -> Edge<R>
    ensures { result ≡ edge_of R.Ord.cmp first below }
{
    match (first, below) {
        (None, None) => Edge::Whole,
        (None, Some(l)) => Edge::Below(l),
        (Some(u), None) => Edge::AtMost(u),
        (Some(u), Some(l)) => {
            if u.cmp(&l).is_lt() {
                Edge::AtMost(u)
            } else {
                Edge::Below(l)
            }
        }
    }
}
