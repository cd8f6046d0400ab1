//! What requests mean.
ghost use Rattle.std.specs.Prelude.{◌≡◌, ◌↔◌, ◌<◌, List, ℕ, All, Some};
ghost use Rattle.ppq_script.specs.declared.command.Command.{Command};
ghost use Rattle.ppq_script.specs.declared.kind.Kind.{Kind};
ghost use Rattle.ppq_script.specs.declared.order.Order.{Order};
ghost use Rattle.ppq_requests.specs.Hello.{hello, hello_of, head_of_both};
ghost use Rattle.ppq_requests.specs.Requests.{request_of};
ghost use Rattle.ppq_requests.specs.Meaning.{Asks};

use ppq_record::{fields_laws, record_laws};
use ppq_script::{Fields, Record};

/// The law of requests, as clauses for the proof of whoever calls it, and for a reader: bytes are a request
/// for some commands if and only if they are what a client writes who asks for these. It does nothing.
#[inline]
pub fn requests_mean<R: Fields>()
    ensures { (bytes : List ℕ) (commands : List (Command R)) → All (λ byte. byte < 256) bytes → (request_of R.Fields bytes ≡ Some commands) ↔ Asks R.Fields bytes commands }
{
    record_laws::<R>();
}

/// The law of the first frame: it names a kind and an order if and only if it is their text. It does nothing.
#[inline]
pub fn hello_means()
    ensures { (bytes : List ℕ) (kind : Kind) (order : Order) → (hello_of bytes ≡ Some (head_of_both kind order)) ↔ (bytes ≡ hello kind order) }
{}
