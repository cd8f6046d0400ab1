//! Which command the arguments are for.
ghost use Rattle.std.specs.Prelude.{◌≡◌};
ghost use Rattle.ppq_words.specs.Reading.{texts_of};
ghost use Rattle.ppq_cli.specs.AllWords.{subcommand_named, subcommand_of};

/// A command of the program, as the first argument names it.
#[derive(Clone, Copy, Debug, PartialEq, Eq)]
pub enum Subcommand {
    /// Executes a script, or refuses a first argument that names no command.
    Run,
    /// Simulates the events of an agenda.
    Sim,
    /// Sweeps over a graph.
    Sweep,
}

// The command of this name.
fn subcommand_named(name: &str) -> Subcommand
    ensures { result ≡ subcommand_named name.now }
{
    if name == "sim" {
        Subcommand::Sim
    } else if name == "sweep" {
        Subcommand::Sweep
    } else {
        Subcommand::Run
    }
}

/// The command that the first argument names.
pub fn subcommand_of(words: &[String]) -> Subcommand
    ensures { result ≡ subcommand_of (texts_of words.now) }
{
    match words.split_first() {
        Some((first, _)) => subcommand_named(first.as_str()),
        None => Subcommand::Run,
    }
}
