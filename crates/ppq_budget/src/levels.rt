//! How many runs in blocks there are, and how many of them are merged at once.
ghost use Rattle.std.specs.Prelude.{◌≡◌, ◌*◌, ◌+◌};
ghost use Rattle.ppq_budget.specs.Levels.{fan, levels, most_runs, most_odd_runs};

/// A settled level has at most so many runs in blocks, and so many are merged into one of the next level.
pub const FAN: u32 = 8;

/// How many levels of runs in blocks there are. Runs of the last one are merged into one of the same level.
pub const LEVELS: u32 = 8;

/// How many runs in blocks there are at most once all levels are settled: `FAN` of each level.
pub const MOST_RUNS: u32 = FAN * LEVELS;

/// The words of contracts for these numbers, as a clause for the proof of whoever calls it, and for a reader. It
/// does nothing.
pub fn levels_law()
    ensures runs { most_runs ≡ fan * levels }
    ensures odd { most_odd_runs ≡ most_runs + 1 }
{}
