//! What the words of the command `serve` mean.
ghost use Rattle.std.specs.Prelude.{◌≡◌, ◌↔◌, List, None, Some};
ghost use Rattle.ppq_words.specs.Uses.{Text};
ghost use Rattle.ppq_words.specs.ServeReading.{ServeReading, serve_reading_of};
ghost use Rattle.ppq_words.specs.ServeMeaning.{ServeReads, IsServeUsageOf};

use ppq_script::{Pair, lines_mean};

/// The law of the words of `serve`, as clauses for the proof of whoever calls it, and for a reader.
///
/// Words have a reading if and only if they are `serve` and, in any order, the options, each once; but of
/// `--memory` and `--memory-bytes` just one is there. An option's value is the next word or follows `=`,
/// and no word stands alone. The name is not empty, no value begins with `-`, and each number is 1 to 20
/// decimal digits and in its range. The reading is the one that the words spell, and there is no other.
/// It does nothing.
#[inline]
pub fn serve_words_mean()
    ensures meaning { (words : List Text) (r : ServeReading) → (serve_reading_of words ≡ Some r) ↔ ServeReads words r }
    ensures no_reading { (words : List Text) → (serve_reading_of words ≡ None) ↔ ((r : ServeReading) → ¬ ServeReads words r) }
    ensures one_reading { (words : List Text) (r s : ServeReading) → ServeReads words r → ServeReads words s → r ≡ s }
    // Each reading has words: those of the line that explains the usage.
    ensures usage { (words : List Text) (r : ServeReading) → IsServeUsageOf words r → ServeReads words r }
{
    lines_mean::<Pair>();
}
