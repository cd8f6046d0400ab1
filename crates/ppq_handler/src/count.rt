//! The handler that counts.
ghost use Rattle.std.specs.Prelude.{◌≡◌};
ghost use Rattle.ppq_handler.specs.Handling.{standing};
ghost use Rattle.ppq_handler.specs.declared.kind.Kind.TheVariants.{Count};

use crate::{Handler, Kind, Outcome};
use std::marker::Model;

/// Adds the words that it gets.
#[derive(Drop)]
pub struct CountHandler {
    kept: u64,
}

impl Model for CountHandler {
    ghost use Rattle.std.specs.Prelude.{ℕ};

    ghost Value = { ℕ };

    ghost view = { λ h. h.kept };
}

impl CountHandler {
    /// A handler that keeps 0.
    pub fn new() -> CountHandler
        ensures { result ≡ 0 }
    {
        CountHandler { kept: 0 }
    }
}

impl Handler for CountHandler {
    ghost stands = { λ h. standing Count h };

    fn kind(&self) -> Kind {
        Kind::Count
    }

    fn kept(&self) -> u64 {
        self.kept
    }

    fn handle(&mut self, _now: u64, _me: u64, _peers: u64, word: u64) -> Outcome {
        self.kept = self.kept.wrapping_add(word);
        Outcome {
            reply: self.kept,
            first: None,
            second: None,
            retire: false,
        }
    }
}
