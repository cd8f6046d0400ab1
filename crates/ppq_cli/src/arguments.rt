//! Reads the arguments of the program.
ghost use Rattle.std.specs.Prelude.{◌≡◌, ◌⊎◌, IfErr};
ghost use Rattle.ppq_jobs.specs.ppq_engine.declared.end.End.TheVariants.{Usage, Memory};

use ppq_jobs::End;
use std::env;
use std::env::Env;
use std::io::ErrorKind;

/// The arguments after the program's name. One that is not UTF-8 text has no reading.
pub fn words_of<R: Env + AllocGlobal>(rt: &R) -> Result<Vec<String>, End>
    ensures { IfErr result (λ end. (end ≡ Usage) ⊎ (end ≡ Memory)) }
{
    let arguments = match env::args(rt) {
        Ok(arguments) => arguments,
        Err(error) if error.kind() == ErrorKind::OutOfMemory => return Err(End::Memory),
        Err(_) => return Err(End::Usage),
    };
    let words = arguments.skip(1).collect(rt.alloc());
    words.map_err(|_| End::Memory)
}
