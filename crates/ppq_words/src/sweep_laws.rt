//! What the words of the command `sweep` mean.
ghost use Rattle.std.specs.Prelude.{◌≡◌, ◌↔◌, List, None, Some};
ghost use Rattle.ppq_words.specs.Uses.{Text};
ghost use Rattle.ppq_words.specs.SweepReading.{SweepReading, sweep_reading_of};
ghost use Rattle.ppq_words.specs.SweepMeaning.{SweepReads, IsSweepUsageOf};

use ppq_script::{Pair, lines_mean};

/// The law of the words of `sweep`, as clauses for the proof of whoever calls it, and for a reader.
///
/// Words have a reading if and only if they are `sweep` and, in any order, the name of the file of edges
/// and the options, each once; but of `--memory` and `--memory-bytes` just one is there. An option's
/// value is the next word or follows `=`. The names are not empty, no value begins with `-`, and each
/// number is 1 to 20 decimal digits and in its range: that of `--nodes` is at most 4,294,967,296. The
/// reading is the one that the words spell, and there is no other. It does nothing.
#[inline]
pub fn sweep_words_mean()
    ensures meaning { (words : List Text) (r : SweepReading) → (sweep_reading_of words ≡ Some r) ↔ SweepReads words r }
    ensures no_reading { (words : List Text) → (sweep_reading_of words ≡ None) ↔ ((r : SweepReading) → ¬ SweepReads words r) }
    ensures one_reading { (words : List Text) (r s : SweepReading) → SweepReads words r → SweepReads words s → r ≡ s }
    // Each reading has words: those of the line that explains the usage.
    ensures usage { (words : List Text) (r : SweepReading) → IsSweepUsageOf words r → SweepReads words r }
{
    lines_mean::<Pair>();
}
