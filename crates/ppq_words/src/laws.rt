//! What the words mean.
ghost use Rattle.std.specs.Prelude.{◌≡◌, ◌↔◌, List, None, Some};
ghost use Rattle.ppq_words.specs.Uses.{Text};
ghost use Rattle.ppq_words.specs.Reading.{Reading, reading_of};
ghost use Rattle.ppq_words.specs.Meaning.{Reads, IsUsageOf};

use ppq_script::{Pair, lines_mean};

/// The law of the words, as clauses for the proof of whoever calls it, and for a reader.
///
/// Words have a reading if and only if they are `run` and, in any order, the script's name and the
/// options, each once; but of `--memory` and `--memory-bytes` just one is there, and `--form`, with the
/// value `text` or `bytes`, may be absent, which means `text`. An option's value is the next word or
/// follows `=`. The names are not empty, no value begins with `-`, and each number is 1 to 20 decimal
/// digits and in its range. The reading is the one that the words spell, and there is no other. It does
/// nothing.
#[inline]
pub fn words_mean()
    ensures meaning { (words : List Text) (r : Reading) → (reading_of words ≡ Some r) ↔ Reads words r }
    ensures no_reading { (words : List Text) → (reading_of words ≡ None) ↔ ((r : Reading) → ¬ Reads words r) }
    ensures one_reading { (words : List Text) (r s : Reading) → Reads words r → Reads words s → r ≡ s }
    // Each reading has words: those of the line that explains the usage.
    ensures usage { (words : List Text) (r : Reading) → IsUsageOf words r → Reads words r }
{
    lines_mean::<Pair>();
}
