//! Handlers of timed events, and the agenda machine that says what they do together.
//!
//! An event is a [`Triple`]: a time, a target and a word. Its target is a place of a roster, and the handler
//! in that place answers it ([`Handler::handle`]): with a number that is printed, with up to two events that
//! follow, and with whether it retires. What a handler does depends on its [`Kind`] and on one number that it
//! keeps, so the whole run of an agenda is a definition (`run` in `specs/Agenda.antt`), on one thread and
//! with no queue. Somebody's own handler is one more type with this trait.
//!
//! A round is events of one time. No two handlers of a roster touch each other, so workers answer a
//! round beside each other, each for the handlers of its places ([`answer_round`]), and what they answer is what
//! one thread answers. Each event that follows is strictly later, so a round is a part of the run
//! ([`round_law`]).
#![tactic(auto)]

mod ahead;
mod boxed;
mod count;
mod crew;
mod ending;
mod fork;
mod handler;
mod kind;
mod laws;
mod mortal;
mod outcome;
mod part;
mod place;
mod relay;
mod roster;
mod round;

pub use count::CountHandler;
pub use crew::Crew;
pub use ending::Ending;
pub use fork::ForkHandler;
pub use handler::Handler;
pub use kind::Kind;
pub use laws::{gone_law, round_law};
pub use mortal::MortalHandler;
pub use outcome::Outcome;
pub use ppq_outside::{Gate, Host};
pub use ppq_record::Triple;
pub use relay::RelayHandler;
pub use round::answer_round;
