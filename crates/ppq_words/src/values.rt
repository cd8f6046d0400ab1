//! What the values of a parse say.
ghost use Rattle.std.specs.Prelude.{◌≡◌, option_map, option_and_then, codes};
ghost use Rattle.clap.specs.Words.{first_value, found_of};
ghost use Rattle.ppq_words.specs.Reading.{as_reading, not_empty, number_in, count_in, budget_of, given_by, form_of, reading_by};

use crate::{BudgetUnit, GivenSizes, RunArguments};
use clap::ArgMatches;
use ppq_script::{Form, number};

// The value under a name, where it is not empty.
pub(crate) fn name_under<'a>(matches: &ArgMatches<'a>, id: &str) -> Option<&'a str>
    ensures { option_map (λ s. s.now) result ≡ option_and_then not_empty (first_value (found_of matches.now) id.now) }
{
    let text = matches.get_str(id)?;
    if text.is_empty() { None } else { Some(text) }
}

// The value under a name, where it is a number of 1 to 20 decimal digits.
pub(crate) fn number_under(matches: &ArgMatches<'_>, id: &str) -> Option<u64>
    ensures { result ≡ number_in (first_value (found_of matches.now) id.now) }
{
    number(matches.get_str(id)?.as_bytes())
}

// The value under a name, where it is a number of at most 4,294,967,296.
pub(crate) fn count_under(matches: &ArgMatches<'_>, id: &str) -> Option<u64>
    ensures { result ≡ count_in (first_value (found_of matches.now) id.now) }
{
    let count = number_under(matches, id)?;
    if count > 4_294_967_296 {
        return None;
    }
    Some(count)
}

// The budget and its unit, where it is given in just one.
fn budget_of(matches: &ArgMatches<'_>) -> Option<(u64, BudgetUnit)>
    ensures { let value = first_value (found_of matches.now) in
        result ≡ budget_of (value (codes "--memory")) (value (codes "--memory-bytes")) }
{
    match (
        matches.get_str("--memory"),
        matches.get_str("--memory-bytes"),
    ) {
        (Some(records), None) => Some((number(records.as_bytes())?, BudgetUnit::Records)),
        (None, Some(bytes)) => Some((number(bytes.as_bytes())?, BudgetUnit::Bytes)),
        _ => None,
    }
}

// The form of the output: text where nothing is said.
fn form_of(matches: &ArgMatches<'_>) -> Option<Form>
    ensures { result ≡ form_of (first_value (found_of matches.now) (codes "--form")) }
{
    match matches.get_str("--form") {
        None => Some(Form::Text),
        Some("text") => Some(Form::Text),
        Some("bytes") => Some(Form::Bytes),
        Some(_) => None,
    }
}

// The sizes that the values say, where none is missing, the budget is given in just one unit, and each
// number is in its range.
pub(crate) fn given_of(matches: &ArgMatches<'_>) -> Option<GivenSizes>
    ensures { result ≡ given_by (first_value (found_of matches.now)) }
{
    let budget = budget_of(matches)?;
    let blocks = number_under(matches, "--blocks")?;
    let workers = number_under(matches, "--workers")?;
    let block = number_under(matches, "--block")?;
    let heap = number_under(matches, "--heap")?;
    let workers = u32::try_from(workers).ok()?;
    let block = u32::try_from(block).ok()?;
    let heap = u32::try_from(heap).ok()?;
    let blocks = u32::try_from(blocks).ok()?;
    GivenSizes::new(workers, block, heap, budget, blocks)
}

// What the values of a parse say, where none is missing, no name is empty, each number is spelled and
// in its range, and the form has a name.
pub(crate) fn arguments_of<'a>(matches: &ArgMatches<'a>) -> Option<RunArguments<'a>>
    ensures { option_map as_reading result ≡ reading_by (first_value (found_of matches.now)) }
{
    let script = name_under(matches, "SCRIPT")?;
    let device = name_under(matches, "--device")?;
    let given = given_of(matches)?;
    let form = form_of(matches)?;
    Some(RunArguments {
        script,
        device,
        given,
        form,
    })
}
