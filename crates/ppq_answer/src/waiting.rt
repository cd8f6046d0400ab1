//! Waits for the next frame of a source.
ghost use Rattle.std.specs.Prelude.{List, ℕ, Option, IfOk, OnErr};
ghost use Rattle.ppq_frames.specs.ppq_outside.Told.{HasOneCause};
ghost use Rattle.ppq_frames.specs.Frames.{Came, IsPart};
ghost use Rattle.ppq_answer.specs.Waiting.{IsAwaited};

use ppq_frames::{Failed, Filled, Found, Host, Incoming, Source};

/// Waits until a whole frame stands first, or a length that is too long, and returns `More`; `End` and `CutOff` are
/// returned if the source is at its end before, and an error if a call of it failed. The source is called only while a
/// part of a frame waits, so what came already is taken without a wait, and no frame waits when a call fails.
pub fn wait<H: Host, I: Source>(
    rt: &H,
    incoming: &mut Incoming,
    source: &mut I,
) -> Result<Filled, Failed>
    ensures awaited { IfOk result (IsAwaited (I.over source.new) incoming.new) }
    ensures part { OnErr result (IsPart incoming.new) }
    ensures came { (told : Option (List ℕ)) (requests : List (List ℕ)) → Came told (I.told source.old) (I.gave source.old) requests incoming.old → Came told (I.told source.new) (I.gave source.new) requests incoming.new }
    ensures cause { HasOneCause (I.faults source.old) (I.faults source.new) result }
{
    'waiting: loop {
        match incoming.first() {
            Found::Part => {}
            Found::Request { .. } => return Ok(Filled::More),
            Found::TooLong => return Ok(Filled::More),
        }
        match incoming.fill(rt, source) {
            Ok(filled) => match filled {
                Filled::More => {}
                Filled::End => return Ok(Filled::End),
                Filled::CutOff => return Ok(Filled::CutOff),
            },
            Err(failed) => return Err(failed),
        }
    }
}
