//! What the values of a parse of `serve` say.
ghost use Rattle.std.specs.Prelude.{◌≡◌, option_map};
ghost use Rattle.clap.specs.Words.{first_value, found_of};
ghost use Rattle.ppq_words.specs.ServeReading.{as_serve_reading, serve_reading_by};

use crate::ServeArguments;
use crate::values::{given_of, name_under};
use clap::ArgMatches;

// What the values of a parse say, where no word stands alone, none is missing, the name is not empty,
// and each number is spelled and in its range.
pub(crate) fn serve_arguments_of<'a>(matches: &ArgMatches<'a>) -> Option<ServeArguments<'a>>
    ensures { option_map as_serve_reading result ≡ serve_reading_by (first_value (found_of matches.now)) }
{
    if matches.get_str("SCRIPT").is_some() {
        return None;
    }
    let device = name_under(matches, "--device")?;
    let given = given_of(matches)?;
    Some(ServeArguments { device, given })
}
