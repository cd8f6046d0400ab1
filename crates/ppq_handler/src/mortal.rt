//! The handler that retires.
ghost use Rattle.std.specs.Prelude.{◌≡◌};
ghost use Rattle.ppq_handler.specs.Handling.{standing};
ghost use Rattle.ppq_handler.specs.declared.kind.Kind.TheVariants.{Mortal};

use crate::{Handler, Kind, Outcome};
use std::marker::Model;

/// Counts its events, and retires at a word of 0.
#[derive(Drop)]
pub struct MortalHandler {
    kept: u64,
}

impl Model for MortalHandler {
    ghost use Rattle.std.specs.Prelude.{ℕ};

    ghost Value = { ℕ };

    ghost view = { λ h. h.kept };
}

impl MortalHandler {
    /// A handler that keeps 0.
    pub fn new() -> MortalHandler
        ensures { result ≡ 0 }
    {
        MortalHandler { kept: 0 }
    }
}

impl Handler for MortalHandler {
    ghost stands = { λ h. standing Mortal h };

    fn kind(&self) -> Kind {
        Kind::Mortal
    }

    fn kept(&self) -> u64 {
        self.kept
    }

    fn handle(&mut self, _now: u64, _me: u64, _peers: u64, word: u64) -> Outcome {
        self.kept = self.kept.wrapping_add(1);
        Outcome {
            reply: self.kept,
            first: None,
            second: None,
            retire: word == 0,
        }
    }
}
