//! Reads the arguments of the command `serve`.
ghost use Rattle.std.specs.Prelude.{◌≡◌, IfOk, IsOk, false, option_map};
ghost use Rattle.ppq_words.specs.Reading.{texts_of};
ghost use Rattle.ppq_words.specs.ServeReading.{as_serve_reading, serve_reading_of, may_serve};

use crate::ServeArguments;
use crate::serve_values::serve_arguments_of;
use crate::usage::SERVE;
use ppq_script::Memory;
use std::alloc::Global;

/// Reads words as the command `serve`: those of the program `ppq-serve`, with `serve` in place of its name.
/// Returns `None` if and only if they have no reading; `serve_words_mean` says what a reading is.
///
/// Returns `Memory` only if an allocation fails. Words that are refused before the parse, since the
/// first is not `serve` or another has a stray hyphen, are refused without an allocation. Costs two
/// passes over the words and the memory of one parse; the name is borrowed from the words.
pub fn read_serve_words<'a>(
    alloc: Global,
    words: &'a [String],
) -> Result<Option<ServeArguments<'a>>, Memory>
    ensures reading { IfOk result (λ found. option_map as_serve_reading found ≡ serve_reading_of (texts_of words.now)) }
    // Words that are refused before the parse do not fail for memory.
    ensures early { may_serve (texts_of words.now) ≡ false → IsOk result }
{
    match SERVE.parse(alloc, words) {
        Ok(Some(matches)) => Ok(serve_arguments_of(&matches)),
        Ok(None) => Ok(None),
        Err(error) => Err(error),
    }
}
