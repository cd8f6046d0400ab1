//! Takes the first frame of a client.
ghost use Rattle.std.specs.Prelude.{◌≡◌, IfOk, IfErr, IfSome, IfNone, Some, None};
ghost use Rattle.ppq_answer.specs.ppq_frames.Frames.{HasFirst, IsTooLong, IsPart, first_request};
ghost use Rattle.ppq_requests.specs.Hello.{hello_of};
ghost use Rattle.ppq_serve_cli.specs.First.{TakesFirst, LacksFirst, NamesNone};

use ppq_answer::{End, Filled, Found, Incoming, Outcome, Source, wait};
use ppq_requests::{Head, Host, read_hello};

// The records that the frame names that stands first, if it is one of the four texts.
fn hello(incoming: &Incoming) -> Option<Head>
    requires { ¬ IsPart incoming.now }
    ensures named { IfSome result (λ head. HasFirst incoming.now × (hello_of (first_request incoming.now) ≡ Some head)) }
    ensures none { IfNone result (NamesNone incoming.now) }
{
    match incoming.first() {
        Found::Request { request } => read_hello(request),
        Found::TooLong => None,
        Found::Part => None,
    }
}

// Waits for the first frame, and takes it: it says which records there are.
pub fn first_frame<H: Host, I: Source>(
    rt: &H,
    incoming: &mut Incoming,
    source: &mut I,
) -> Result<Head, Outcome>
    ensures taken { IfOk result (TakesFirst I.Source source.old source.new incoming.old incoming.new) }
    ensures lacks { IfErr result (LacksFirst I.Source source.old source.new incoming.old incoming.new) }
{
    match wait(rt, incoming, source) {
        Ok(filled) => match filled {
            Filled::More => {}
            Filled::End => return Err(Outcome::BadRequest { number: 1 }),
            Filled::CutOff => return Err(Outcome::BadRequest { number: 1 }),
        },
        Err(_) => {
            return Err(Outcome::Ended {
                end: End::ReadFault,
            });
        }
    }
    match hello(incoming) {
        Some(head) => {
            incoming.skip();
            Ok(head)
        }
        None => Err(Outcome::BadRequest { number: 1 }),
    }
}
