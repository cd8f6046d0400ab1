//! The handler that hands on.
ghost use Rattle.std.specs.Prelude.{◌≡◌};
ghost use Rattle.ppq_handler.specs.Handling.{standing};
ghost use Rattle.ppq_handler.specs.declared.kind.Kind.TheVariants.{Relay};

use crate::ahead::ahead;
use crate::{Handler, Kind, Outcome};
use std::marker::Model;

/// Hands each word, less one, to the next place.
#[derive(Drop)]
pub struct RelayHandler {
    kept: u64,
}

impl Model for RelayHandler {
    ghost use Rattle.std.specs.Prelude.{ℕ};

    ghost Value = { ℕ };

    ghost view = { λ h. h.kept };
}

impl RelayHandler {
    /// A handler that keeps 0.
    pub fn new() -> RelayHandler
        ensures { result ≡ 0 }
    {
        RelayHandler { kept: 0 }
    }
}

impl Handler for RelayHandler {
    ghost stands = { λ h. standing Relay h };

    fn kind(&self) -> Kind {
        Kind::Relay
    }

    fn kept(&self) -> u64 {
        self.kept
    }

    fn handle(&mut self, now: u64, me: u64, peers: u64, word: u64) -> Outcome {
        self.kept = self.kept.wrapping_add(1);
        let first = if word > 0 {
            ahead(1, now, me, peers, word - 1)
        } else {
            None
        };
        Outcome {
            reply: word,
            first,
            second: None,
            retire: false,
        }
    }
}
