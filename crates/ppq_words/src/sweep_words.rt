//! Reads the arguments of the command `sweep`.
ghost use Rattle.std.specs.Prelude.{◌≡◌, IfOk, IsOk, false, option_map};
ghost use Rattle.ppq_words.specs.Reading.{texts_of};
ghost use Rattle.ppq_words.specs.SweepReading.{as_sweep_reading, sweep_reading_of, may_sweep};

use crate::SweepArguments;
use crate::sweep_values::sweep_arguments_of;
use crate::usage::SWEEP;
use ppq_script::Memory;
use std::alloc::Global;

/// Reads the words after the program's name as the command `sweep`. Returns `None` if and only if they
/// have no reading; `sweep_words_mean` says what a reading is.
///
/// Returns `Memory` only if an allocation fails. Words that are refused before the parse, since the
/// first is not `sweep` or another has a stray hyphen, are refused without an allocation. Costs two
/// passes over the words and the memory of one parse; the names are borrowed from the words.
pub fn read_sweep_words<'a>(
    alloc: Global,
    words: &'a [String],
) -> Result<Option<SweepArguments<'a>>, Memory>
    ensures reading { IfOk result (λ found. option_map as_sweep_reading found ≡ sweep_reading_of (texts_of words.now)) }
    // Words that are refused before the parse do not fail for memory.
    ensures early { may_sweep (texts_of words.now) ≡ false → IsOk result }
{
    match SWEEP.parse(alloc, words) {
        Ok(Some(matches)) => Ok(sweep_arguments_of(&matches)),
        Ok(None) => Ok(None),
        Err(error) => Err(error),
    }
}
