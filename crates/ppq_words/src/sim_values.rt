//! What the values of a parse of `sim` say.
ghost use Rattle.std.specs.Prelude.{◌≡◌, option_map};
ghost use Rattle.clap.specs.Words.{first_value, found_of};
ghost use Rattle.ppq_words.specs.SimReading.{as_sim_reading, sim_reading_by};

use crate::SimArguments;
use crate::values::{count_under, given_of, name_under, number_under};
use clap::ArgMatches;

// What the values of a parse say, where none is missing, no name is empty, and each number is spelled
// and in its range.
pub(crate) fn sim_arguments_of<'a>(matches: &ArgMatches<'a>) -> Option<SimArguments<'a>>
    ensures { option_map as_sim_reading result ≡ sim_reading_by (first_value (found_of matches.now)) }
{
    let agenda = name_under(matches, "SCRIPT")?;
    let device = name_under(matches, "--device")?;
    let given = given_of(matches)?;
    let until = number_under(matches, "--until")?;
    let events = count_under(matches, "--events")?;
    Some(SimArguments {
        agenda,
        device,
        given,
        until,
        events,
    })
}
