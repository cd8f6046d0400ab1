//! What answers an event.
ghost use Rattle.std.specs.Prelude.{◌≡◌, ◌≤◌, ◌<◌};
ghost use Rattle.ppq_handler.specs.Handling.{Standing, after_word, answer_by};

use crate::{Kind, Outcome};

/// What answers an event: by its kind, and by a number that it keeps.
pub trait Handler: Drop {
    /// Its kind, and the number that it keeps.
    ghost stands: { Self → Standing };

    /// Its kind, which never changes.
    fn kind(&self) -> Kind
        ensures { result ≡ (stands self.now).kind };

    /// The number that it keeps.
    fn kept(&self) -> u64
        ensures { result ≡ (stands self.now).kept };

    /// Answers the event of this time and word, as the handler of place `me` of `peers`.
    fn handle(&mut self, now: u64, me: u64, peers: u64, word: u64) -> Outcome
        requires me { me < peers }
        requires peers { peers ≤ 65536 }
        ensures after { stands self.new ≡ after_word (stands self.old) word }
        ensures answer { result ≡ answer_by (stands self.old) now me peers word };
}
