//! Looks whether records are edges.
ghost use Rattle.std.specs.Prelude.{◌≡◌, ◌+◌, ◌<◌, ◌^◌, length};
ghost use Rattle.ppq_sweep.specs.ppq_record.Pair.{pair_of};
ghost use Rattle.ppq_engine.specs.ppq_load.Given.{records_of};
ghost use Rattle.ppq_jobs.specs.Edges.{is_edge, first_bad_from};

use ppq_engine::{Maker, Piece};
use ppq_sweep::Pair;

// Whether a record is an edge between so many nodes.
#[inline]
fn is_edge(edge: Pair, nodes: u64) -> bool
    ensures { result ≡ is_edge nodes edge }
{
    edge.key < edge.value && edge.value < nodes
}

// The number of the first record of a piece that is no edge between so many nodes. The first record of the piece has
// the number `from`.
pub(crate) fn first_bad(piece: &[u8], nodes: u64, from: u64) -> Option<u64>
    requires { from + length piece.now < 2 ^ 64 }
    ensures { result ≡ first_bad_from nodes from (records_of pair_of 16 piece.now) }
{
    let mut records = Piece::new(piece);
    let mut number = from;
    'looking: loop {
        let next: Option<Pair> = records.make();
        match next {
            None => return None,
            Some(edge) => {
                if !is_edge(edge, nodes) {
                    return Some(number);
                }
                number += 1;
            }
        }
    }
}
