//! A command by its description, and the parser that is made of it.
ghost use Rattle.std.specs.Prelude.{◌≡◌, IfOk, IsOk, false, option_map};
ghost use Rattle.clap.specs.Words.{app_of, found_of, first_value};
ghost use Rattle.ppq_words.specs.Command.{command_app};
ghost use Rattle.ppq_words.specs.Strays.{may_parse};
ghost use Rattle.ppq_words.specs.Reading.{texts_of};
ghost use Rattle.ppq_words.specs.Usage.{values_in};

use crate::strays::may_parse;
use clap::error::ErrorKind;
use clap::{Arg, ArgMatches, Command};
use ppq_script::Memory;
use std::alloc::{AllocError, Global};
use std::marker::Model;

// A command by its description. Behind its word there may stand, in any order, a word by itself and
// the options, each with one value. What must stand, and what excludes what, is seen after the parse,
// by the values under their names.
#[derive(Drop)]
pub(crate) struct Usage {
    // The word that comes first.
    word: &'static str,
    // The options, each with its two hyphens.
    options: &'static [&'static str],
}

impl Model for Usage {
    ghost use Rattle.std.specs.Prelude.{◌≡◌, true, map};
    ghost use Rattle.std.specs.List.{list_all};
    ghost use Rattle.ppq_words.specs.Usage.{Usage, is_option_name};

    ghost Value = { Usage };

    ghost view = { λ u. record { word = u.word.now; options = map (λ o. o.now) u.options.now } };

    ghost invariant = { λ u. list_all is_option_name (map (λ o. o.now) u.options.now) ≡ true };
}

// The command `run`.
pub(crate) const RUN: Usage = Usage {
    word: "run",
    options: &[
        "--device",
        "--blocks",
        "--workers",
        "--block",
        "--heap",
        "--memory",
        "--memory-bytes",
        "--form",
    ],
};

// The command `sim`.
pub(crate) const SIM: Usage = Usage {
    word: "sim",
    options: &[
        "--device",
        "--blocks",
        "--workers",
        "--block",
        "--heap",
        "--memory",
        "--memory-bytes",
        "--until",
        "--events",
    ],
};

// The command `sweep`.
pub(crate) const SWEEP: Usage = Usage {
    word: "sweep",
    options: &[
        "--device",
        "--blocks",
        "--workers",
        "--block",
        "--heap",
        "--memory",
        "--memory-bytes",
        "--nodes",
    ],
};

// The command `serve`.
pub(crate) const SERVE: Usage = Usage {
    word: "serve",
    options: &[
        "--device",
        "--blocks",
        "--workers",
        "--block",
        "--heap",
        "--memory",
        "--memory-bytes",
    ],
};

impl Usage {
    // The command as `clap` is told of it. Its word stands for the program's name, and nothing is
    // required or excluded.
    fn command<'a>(&self, alloc: Global) -> Result<Command<'a>, AllocError>
        ensures { IfOk result (λ c. app_of c ≡ command_app self.now) }
    {
        let mut command = Command::new(alloc, self.word)
            .disable_help_flag(true)
            .arg(Arg::new(alloc, "SCRIPT"))?;
        for option in self.options {
            let name = option.strip_prefix("--").unwrap_or(option);
            command = command.arg(Arg::new(alloc, option).long(name))?;
        }
        Ok(command)
    }

    // The values of the words, each under its name. Returns `None` if and only if they have none: the
    // first is not the command's word, the others are not all options with their values and words by
    // themselves, or a name stands twice.
    //
    // Returns `Memory` only if an allocation fails. Words that are refused before the parse, since the
    // first is not the command's word or another has a stray hyphen, are refused without an allocation.
    pub(crate) fn parse<'a>(
        &self,
        alloc: Global,
        words: &'a [String],
    ) -> Result<Option<ArgMatches<'a>>, Memory>
        ensures values { IfOk result (λ found. option_map (λ m. first_value (found_of m)) found ≡ values_in self.now (texts_of words.now)) }
        ensures early { may_parse self.now.word (texts_of words.now) ≡ false → IsOk result }
    {
        if !may_parse(self.word, words) {
            return Ok(None);
        }
        let command = self.command(alloc)?;
        match command.try_get_matches_from(words) {
            Ok(matches) => Ok(Some(matches)),
            Err(error) => match error.kind() {
                ErrorKind::OutOfMemory => Err(Memory),
                _ => Ok(None),
            },
        }
    }
}
