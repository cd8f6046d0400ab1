//! Executes a script with the records that its head names.
ghost use Rattle.std.specs.Prelude.{◌≡◌, ◌≤◌, length, true};
ghost use Rattle.ppq_words.specs.Reading.{as_reading};
ghost use Rattle.ppq_words.specs.ppq_script.Head.{is_typed};
ghost use Rattle.ppq_words.specs.ppq_script.Lines.{head_of};
ghost use Rattle.ppq_cli.specs.RunOver.{RunsBytes};
ghost use Rattle.ppq_cli.specs.Types.{typed, type_of};

use crate::context::Context;
use crate::device::without_blocks;
use crate::reading::{end_of_check, read_script};
use crate::run::run_over;
use ppq_jobs::Ended;
use ppq_record::{fields_laws, record_laws};
use ppq_words::{
    Down, Fields, Gate, Host, Kind, Library, Order, Pair, Rack, RunArguments, Sink, Triple,
    read_head,
};

// Reads a script, whose head names these records, and runs it over them.
fn run_typed<R: Fields + Send + Sync, H: Host, L: Library, K: Rack, O: Sink, G: Gate>(
    context: &Context<H, G>,
    bytes: &[u8],
    arguments: &RunArguments,
    library: &mut L,
    rack: &mut K,
    out: &mut O,
) -> Ended<K::Slot>
where
    H::Dir: Send,
    K::Slot: Send + Sync,
    requires short { length bytes.now ≤ 1_048_576 }
    requires typed { is_typed R.Fields (head_of bytes.now) ≡ true }
    ensures { RunsBytes (typed R.Fields) L.Library K.Rack O.Sink K.Slot.shown (as_reading arguments.now) bytes.now library.old library.new rack.old rack.new out.old out.new result }
{
    fields_laws::<R>();
    record_laws::<R>();
    let workers = arguments.given.workers();
    match read_script::<R, H, L>(context.rt, context.alloc, bytes, library, workers) {
        Ok(script) => run_over(context, &script, arguments, library, rack, out),
        Err(fault) => without_blocks(context.alloc, end_of_check(fault)),
    }
}

/// Reads the head of a script, and runs it over the records that it names. The type of the records is
/// chosen here, once, for all that follows.
pub fn run_bytes<H: Host, L: Library, K: Rack, O: Sink, G: Gate>(
    context: &Context<H, G>,
    bytes: &[u8],
    arguments: &RunArguments,
    library: &mut L,
    rack: &mut K,
    out: &mut O,
) -> Ended<K::Slot>
where
    H::Dir: Send,
    K::Slot: Send + Sync,
    requires short { length bytes.now ≤ 1_048_576 }
    ensures { RunsBytes (type_of bytes.now) L.Library K.Rack O.Sink K.Slot.shown (as_reading arguments.now) bytes.now library.old library.new rack.old rack.new out.old out.new result }
{
    let head = read_head(bytes);
    match (head.kind, head.order) {
        (Kind::Pair, Order::Up) => {
            run_typed::<Pair, H, L, K, O, G>(context, bytes, arguments, library, rack, out)
        }
        (Kind::Pair, Order::Down) => {
            run_typed::<Down<Pair>, H, L, K, O, G>(context, bytes, arguments, library, rack, out)
        }
        (Kind::Triple, Order::Up) => {
            run_typed::<Triple, H, L, K, O, G>(context, bytes, arguments, library, rack, out)
        }
        (Kind::Triple, Order::Down) => {
            run_typed::<Down<Triple>, H, L, K, O, G>(context, bytes, arguments, library, rack, out)
        }
    }
}
