//! A handler in a box is a handler.

use crate::{Handler, Kind, Outcome};

impl Handler for Box<dyn Handler + Send> {
    ghost stands = { λ b. (Handler-box b).stands b.value };

    fn kind(&self) -> Kind {
        (**self).kind()
    }

    fn kept(&self) -> u64 {
        (**self).kept()
    }

    fn handle(&mut self, now: u64, me: u64, peers: u64, word: u64) -> Outcome {
        (**self).handle(now, me, peers, word)
    }
}
