//! The handler that forks.
ghost use Rattle.std.specs.Prelude.{◌≡◌};
ghost use Rattle.ppq_handler.specs.Handling.{standing};
ghost use Rattle.ppq_handler.specs.declared.kind.Kind.TheVariants.{Fork};

use crate::ahead::ahead;
use crate::{Handler, Kind, Outcome};
use std::marker::Model;

/// Hands half of each word to each of the next two places.
#[derive(Drop)]
pub struct ForkHandler {
    kept: u64,
}

impl Model for ForkHandler {
    ghost use Rattle.std.specs.Prelude.{ℕ};

    ghost Value = { ℕ };

    ghost view = { λ h. h.kept };
}

impl ForkHandler {
    /// A handler that keeps 0.
    pub fn new() -> ForkHandler
        ensures { result ≡ 0 }
    {
        ForkHandler { kept: 0 }
    }
}

impl Handler for ForkHandler {
    ghost stands = { λ h. standing Fork h };

    fn kind(&self) -> Kind {
        Kind::Fork
    }

    fn kept(&self) -> u64 {
        self.kept
    }

    fn handle(&mut self, now: u64, me: u64, peers: u64, word: u64) -> Outcome {
        let reply = self.kept;
        self.kept = word;
        if word > 1 {
            return Outcome {
                reply,
                first: ahead(1, now, me, peers, word / 2),
                second: ahead(2, now, me, peers, word / 2),
                retire: false,
            };
        }
        Outcome {
            reply,
            first: None,
            second: None,
            retire: false,
        }
    }
}
