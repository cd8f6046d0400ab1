//! Reads the arguments of the command line.
ghost use Rattle.std.specs.Prelude.{◌≡◌, IfOk, IsOk, false, option_map};
ghost use Rattle.ppq_words.specs.Strays.{may_run};
ghost use Rattle.ppq_words.specs.Reading.{as_reading, texts_of, reading_of};

use crate::RunArguments;
use crate::usage::RUN;
use crate::values::arguments_of;
use ppq_script::Memory;
use std::alloc::Global;

/// Reads the words after the program's name. Returns `None` if and only if they have no reading;
/// `words_mean` says what a reading is.
///
/// Returns `Memory` only if an allocation fails. Words that are refused before the parse, since the
/// first is not `run` or another has a stray hyphen, are refused without an allocation. Costs two
/// passes over the words and the memory of one parse; the names are borrowed from the words.
pub fn read_words<'a>(
    alloc: Global,
    words: &'a [String],
) -> Result<Option<RunArguments<'a>>, Memory>
    ensures reading { IfOk result (λ found. option_map as_reading found ≡ reading_of (texts_of words.now)) }
    // Words that are refused before the parse do not fail for memory.
    ensures early { may_run (texts_of words.now) ≡ false → IsOk result }
{
    match RUN.parse(alloc, words) {
        Ok(Some(matches)) => Ok(arguments_of(&matches)),
        Ok(None) => Ok(None),
        Err(error) => Err(error),
    }
}
