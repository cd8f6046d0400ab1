//! Chooses the type of the records.
ghost use Rattle.ppq_words.specs.ServeReading.{as_serve_reading};
ghost use Rattle.ppq_serve_cli.specs.Over.{ServesNamed};

use crate::context::Context;
use crate::over::serve_over;
use ppq_answer::{Answered, Incoming, Source};
use ppq_requests::{Down, Fields, Head, Kind, Order, Pair, Triple};
use ppq_words::{Gate, Host, Rack, ServeArguments, Sink};

// Answers requests with the records that the first frame names. Their type is chosen here, once, for all that follows.
pub fn serve_named<H: Host, I: Source, K: Rack, O: Sink, G: Gate>(
    context: &Context<H, G>,
    arguments: &ServeArguments,
    head: Head,
    incoming: &mut Incoming,
    source: &mut I,
    rack: &mut K,
    out: &mut O,
) -> Answered<K::Slot>
where
    H::Dir: Send,
    K::Slot: Send + Sync,
    ensures { ServesNamed ⟦<Pair as Fields>⟧ ⟦<Down<Pair> as Fields>⟧ ⟦<Triple as Fields>⟧ ⟦<Down<Triple> as Fields>⟧ head I.Source K.Rack O.Sink K.Slot.shown (as_serve_reading arguments.now) source.old source.new incoming.old incoming.new rack.old rack.new out.old out.new result }
{
    match (head.kind, head.order) {
        (Kind::Pair, Order::Up) => {
            serve_over::<Pair, H, I, K, O, G>(context, arguments, incoming, source, rack, out)
        }
        (Kind::Pair, Order::Down) => {
            serve_over::<Down<Pair>, H, I, K, O, G>(context, arguments, incoming, source, rack, out)
        }
        (Kind::Triple, Order::Up) => {
            serve_over::<Triple, H, I, K, O, G>(context, arguments, incoming, source, rack, out)
        }
        (Kind::Triple, Order::Down) => {
            serve_over::<Down<Triple>, H, I, K, O, G>(
                context, arguments, incoming, source, rack, out,
            )
        }
    }
}
