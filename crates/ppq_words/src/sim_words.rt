//! Reads the arguments of the command `sim`.
ghost use Rattle.std.specs.Prelude.{◌≡◌, IfOk, IsOk, false, option_map};
ghost use Rattle.ppq_words.specs.Reading.{texts_of};
ghost use Rattle.ppq_words.specs.SimReading.{as_sim_reading, sim_reading_of, may_sim};

use crate::SimArguments;
use crate::sim_values::sim_arguments_of;
use crate::usage::SIM;
use ppq_script::Memory;
use std::alloc::Global;

/// Reads the words after the program's name as the command `sim`. Returns `None` if and only if they
/// have no reading; `sim_words_mean` says what a reading is.
///
/// Returns `Memory` only if an allocation fails. Words that are refused before the parse, since the
/// first is not `sim` or another has a stray hyphen, are refused without an allocation. Costs two
/// passes over the words and the memory of one parse; the names are borrowed from the words.
pub fn read_sim_words<'a>(
    alloc: Global,
    words: &'a [String],
) -> Result<Option<SimArguments<'a>>, Memory>
    ensures reading { IfOk result (λ found. option_map as_sim_reading found ≡ sim_reading_of (texts_of words.now)) }
    // Words that are refused before the parse do not fail for memory.
    ensures early { may_sim (texts_of words.now) ≡ false → IsOk result }
{
    match SIM.parse(alloc, words) {
        Ok(Some(matches)) => Ok(sim_arguments_of(&matches)),
        Ok(None) => Ok(None),
        Err(error) => Err(error),
    }
}
