//! What levels mean.
ghost use Rattle.std.specs.Prelude.{◌≡◌, ◌≤◌, ℕ, List};
ghost use Rattle.ppq_queue.specs.ppq_heap.ppq_record.declared.pair.Pair.{Pair};
ghost use Rattle.ppq_queue.specs.ppq_heap.ppq_record.Bag.{IsSameBag};
ghost use Rattle.ppq_sweep.specs.Levels.{AreEdges, AreLevels, level, sweep_text};

/// The law of levels, as clauses for the proof of whoever calls it, and for a reader: levels rise along each edge, each
/// that is not 0 is reached by an edge, and no other numbers are so. No level is above its node, and the order of the
/// edges does not matter. It does nothing.
#[inline]
pub fn level_law()
    ensures levels { (nodes : ℕ) → (edges : List Pair) → AreEdges nodes edges → AreLevels edges (level edges) }
    ensures only { (nodes : ℕ) → (edges : List Pair) → AreEdges nodes edges → (f : ℕ → ℕ) → AreLevels edges f → (v : ℕ) → f v ≡ level edges v }
    ensures low { (nodes : ℕ) → (edges : List Pair) → AreEdges nodes edges → (v : ℕ) → level edges v ≤ v }
    ensures same_edges { (nodes : ℕ) → (one other : List Pair) → IsSameBag one other → AreEdges nodes one → AreEdges nodes other }
    ensures same_text { (nodes : ℕ) → (one other : List Pair) → IsSameBag one other → sweep_text one nodes ≡ sweep_text other nodes }
{}
