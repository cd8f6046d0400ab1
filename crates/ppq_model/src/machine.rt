//! A machine of the model: a handler of one's own.
ghost use Rattle.std.specs.Prelude.{◌≡◌};
ghost use Rattle.ppq_event.specs.ppq_handler.Handling.{standing};
ghost use Rattle.ppq_event.specs.ppq_handler.declared.kind.Kind.TheVariants.{Relay};

use ppq_event::{Handler, Kind, Outcome, RelayHandler};

// A machine that works on a piece and hands it on to the next machine, a tick later, until it has been at as many machines
// more as its word says. So it is a relay, and beside that does what it likes.
#[derive(Drop)]
pub(crate) struct Machine {
    // The rule by which it hands on.
    rule: RelayHandler,
    // How many steps of arithmetic a piece takes.
    steps: u64,
    // What its work came to. No line tells of it.
    wear: u64,
}

impl Machine {
    // A machine that has not worked yet.
    pub(crate) fn new(steps: u64) -> Self {
        Machine {
            rule: RelayHandler::new(),
            steps,
            wear: 0,
        }
    }
}

// What the work on a piece comes to.
fn worn(wear: u64, steps: u64, piece: u64) -> u64 {
    let mut worn = wear ^ piece;
    for step in 0..steps {
        worn = (worn ^ step).wrapping_mul(0x9E37_79B9_7F4A_7C15);
    }
    worn
}

impl Handler for Machine {
    ghost stands = { λ m. standing Relay m.rule };

    fn kind(&self) -> Kind {
        self.rule.kind()
    }

    fn kept(&self) -> u64 {
        self.rule.kept()
    }

    fn handle(&mut self, now: u64, me: u64, peers: u64, word: u64) -> Outcome {
        self.wear = worn(self.wear, self.steps, word);
        self.rule.handle(now, me, peers, word)
    }
}
