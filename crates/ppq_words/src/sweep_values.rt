//! What the values of a parse of `sweep` say.
ghost use Rattle.std.specs.Prelude.{◌≡◌, option_map};
ghost use Rattle.clap.specs.Words.{first_value, found_of};
ghost use Rattle.ppq_words.specs.SweepReading.{as_sweep_reading, sweep_reading_by};

use crate::SweepArguments;
use crate::values::{count_under, given_of, name_under};
use clap::ArgMatches;

// What the values of a parse say, where none is missing, no name is empty, and each number is spelled
// and in its range.
pub(crate) fn sweep_arguments_of<'a>(matches: &ArgMatches<'a>) -> Option<SweepArguments<'a>>
    ensures { option_map as_sweep_reading result ≡ sweep_reading_by (first_value (found_of matches.now)) }
{
    let edges = name_under(matches, "SCRIPT")?;
    let device = name_under(matches, "--device")?;
    let given = given_of(matches)?;
    let nodes = count_under(matches, "--nodes")?;
    Some(SweepArguments {
        edges,
        device,
        given,
        nodes,
    })
}
