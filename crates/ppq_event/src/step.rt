//! What a round did.
use ppq_handler::Ending;

// What a round did.
#[derive(Clone, Copy)]
pub(crate) enum Step {
    // There was none: the run has ended.
    Ended { ending: Ending },
    // It handled so many events.
    Took { turns: u64 },
}
