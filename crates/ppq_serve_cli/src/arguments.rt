//! Reads the arguments of the program.
ghost use Rattle.std.specs.Prelude.{◌≡◌, ◌⊎◌, IfErr};
ghost use Rattle.ppq_answer.specs.ppq_engine.declared.end.End.TheVariants.{Usage, Memory};
ghost use Rattle.ppq_answer.specs.declared.outcome.Outcome.TheVariants.{Ended};

use ppq_answer::{End, Outcome};
use std::alloc::{AllocError, Global};
use std::env;
use std::env::Env;
use std::io::ErrorKind;

// The word `serve`, in front of the arguments after the program's name.
fn with_word(arguments: env::Args, alloc: Global) -> Result<Vec<String>, AllocError> {
    let mut words = Vec::new(alloc);
    words.push("serve".to_string(alloc)?)?;
    for word in arguments.skip(1) {
        words.push(word)?;
    }
    Ok(words)
}

/// The arguments of the program, with `serve` in place of its name. One that is not UTF-8 text has no reading.
pub fn words_of<R: Env + AllocGlobal>(rt: &R) -> Result<Vec<String>, Outcome>
    ensures { IfErr result (λ outcome. (outcome ≡ Ended Usage) ⊎ (outcome ≡ Ended Memory)) }
{
    let arguments = match env::args(rt) {
        Ok(arguments) => arguments,
        Err(error) if error.kind() == ErrorKind::OutOfMemory => {
            return Err(Outcome::Ended { end: End::Memory });
        }
        Err(_) => return Err(Outcome::Ended { end: End::Usage }),
    };
    with_word(arguments, rt.alloc()).map_err(|_| Outcome::Ended { end: End::Memory })
}
