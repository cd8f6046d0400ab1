//! The top call.
ghost use Rattle.std.specs.Prelude.{[]};
ghost use Rattle.ppq_words.specs.ServeReading.{as_serve_reading};
ghost use Rattle.ppq_serve_cli.specs.Answers.{Answers, ServesWords};

use crate::context::Context;
use crate::first::first_frame;
use crate::kinds::serve_named;
use crate::over::{unmade, without_blocks};
use ppq_answer::{Answered, End, Incoming, Source};
use ppq_requests::{Down, Fields, Pair, Triple};
use ppq_words::{Gate, Host, Memory, Rack, ServeArguments, Sink, read_serve_words};
use std::alloc::Global;

// Does what the arguments say.
fn serve_arguments<H: Host, I: Source, K: Rack, O: Sink, G: Gate>(
    context: &Context<H, G>,
    arguments: &ServeArguments,
    source: &mut I,
    rack: &mut K,
    out: &mut O,
) -> Answered<K::Slot>
where
    H::Dir: Send,
    K::Slot: Send + Sync,
    requires source { I.gave source.old [] }
    ensures { ServesWords ⟦<Pair as Fields>⟧ ⟦<Down<Pair> as Fields>⟧ ⟦<Triple as Fields>⟧ ⟦<Down<Triple> as Fields>⟧ I.Source K.Rack O.Sink K.Slot.shown (as_serve_reading arguments.now) source.old source.new rack.old rack.new out.old out.new result }
{
    let Ok(mut incoming) = Incoming::new(context.alloc) else {
        return unmade(context.alloc, End::Memory);
    };
    match first_frame(context.rt, &mut incoming, source) {
        Ok(head) => serve_named(context, arguments, head, &mut incoming, source, rack, out),
        Err(outcome) => without_blocks(context.alloc, outcome),
    }
}

/// Does all that the program does, with the outside handed in: reads the arguments, waits for the first frame, makes the
/// device with blocks for the records that it names, opens the queue, and answers requests as long as they come.
///
/// Whatever the source gave is frames, one behind the other, and a rest; of the requests that came whole the sink took
/// a prefix of the answers, which are what `ppq` prints of the same commands in the form of bytes, with `size` behind
/// those of each request. After `Done`, `BadRequest` and `ReadFault` it took all of them. A request is read whole before
/// any of it is executed, and its answer is put before the next one is looked at; so the answer to what came never waits
/// for what comes. After `Done` the source is at its end and nothing waits. Each outcome has its cause:
///
/// - `Usage`: the arguments have no reading. Nothing of the outside is called.
/// - `BadRequest`: the frame with that number, counted from 1, is no request: the first one is none of the four texts; it is
///   none of operations, or longer than 4,194,304 bytes; or the source ended in it. Nothing of it was executed.
/// - `BudgetTooSmall`: the budget is below its fixed part, `need`, in the unit in which it is given. No block is made.
/// - `NoDevice`, `ReadFault`, `WriteFault`: the count of faults of the rack, the source or the sink rose in this call.
/// - `DeviceFault`, `NoFreeBlock`: as of `ppq run`, for the commands of the requests.
/// - `Memory`: an allocation failed. Nothing was written: all memory is allocated before the first answer.
///
/// The words of the four types of records stand in the clause, so that what is said of the output is said of that type. It
/// is said of an outside that is visible to proofs; of any other source, of the bytes that its calls gave.
pub fn serve_words<H: Host, I: Source, K: Rack, O: Sink, G: Gate>(
    rt: &H,
    alloc: Global,
    words: &[String],
    source: &mut I,
    rack: &mut K,
    gate: &G,
    out: &mut O,
) -> Answered<K::Slot>
where
    H::Dir: Send,
    K::Slot: Send + Sync,
    requires source { I.gave source.old [] }
    ensures answers { Answers ⟦<Pair as Fields>⟧ ⟦<Down<Pair> as Fields>⟧ ⟦<Triple as Fields>⟧ ⟦<Down<Triple> as Fields>⟧ I.Source K.Rack O.Sink K.Slot.shown words.now source.old source.new rack.old rack.new out.old out.new result }
{
    let found = match read_serve_words(alloc, words) {
        Ok(found) => found,
        Err(Memory) => return unmade(alloc, End::Memory),
    };
    let Some(arguments) = found else {
        return unmade(alloc, End::Usage);
    };
    let context = Context { rt, alloc, gate };
    serve_arguments(&context, &arguments, source, rack, out)
}
