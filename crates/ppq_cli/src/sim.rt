//! The top call of an agenda.
ghost use Rattle.std.specs.Prelude.{◌≤◌, ◌<◌, ◌^◌, length};
ghost use Rattle.ppq_files.specs.Lengths.{IsRecordLength};
ghost use Rattle.ppq_files.specs.Reading.{HasLength};
ghost use Rattle.ppq_words.specs.SimReading.{as_sim_reading};
ghost use Rattle.ppq_jobs.specs.ppq_handler.Roster.{places_of};
ghost use Rattle.ppq_cli.specs.SimOver.{SimsOver};
ghost use Rattle.ppq_cli.specs.SimWords.{SimsWords};

use crate::context::Context;
use crate::device::{device_for, without_blocks};
use crate::lengths::end_of_length;
use crate::plan::plan_for;
use ppq_files::record_length;
use ppq_jobs::{Agenda, End, Ended, Handler, run_agenda};
use ppq_words::{Gate, Host, Library, Memory, Rack, SimArguments, Sink, Triple, read_sim_words};

// Makes the device, with blocks for events, and simulates an agenda of so many bytes over it, unless the budget
// is below its fixed part; the outcome then has that part in the unit of the budget. All blocks that were made
// come back.
fn sim_over<H: Host, L: Library, K: Rack, O: Sink, G: Gate>(
    context: &Context<H, G>,
    arguments: &SimArguments,
    bytes: u64,
    roster: Vec<Option<Box<dyn Handler + Send>>>,
    library: &mut L,
    rack: &mut K,
    out: &mut O,
) -> Ended<K::Slot>
where
    H::Dir: Send,
    K::Slot: Send + Sync,
    requires roster { (1 ≤ length roster.items) × (length roster.items ≤ 65536) }
    requires bytes { IsRecordLength 24 bytes }
    requires length { HasLength (L.told library.old) arguments.now.agenda.now bytes }
    ensures { SimsOver L.Library K.Rack O.Sink K.Slot.shown (as_sim_reading arguments.now) bytes (places_of stands roster.items) library.old library.new rack.old rack.new out.old out.new result }
{
    let agenda = Agenda {
        name: arguments.agenda,
        bytes,
        until: arguments.until,
        events: arguments.events,
    };
    let plan = plan_for::<Triple>(&arguments.given);
    match device_for::<Triple, H, K, G>(context, &plan, arguments.device, rack) {
        Ok(blocks) => run_agenda(
            context.rt,
            context.alloc,
            &agenda,
            plan.sizes,
            blocks,
            roster,
            library,
            out,
            context.gate,
        ),
        Err(ended) => ended,
    }
}

/// Does all that the program does with an agenda, with the outside and a roster of handlers handed in: reads the
/// arguments, asks for the length of the agenda that they name, makes the device, and simulates the agenda over it.
///
/// After `Done` the sink took the journal of the agenda machine, which answers one event after the other, with
/// the handlers of the roster in their places; after every other outcome it took a prefix of it. All blocks that
/// the rack made come back, each once. No file but the agenda is read, and not past its length. Each outcome comes
/// only for its cause, and `Usage`, `NoScript`, `BadAgenda` and `BudgetTooSmall` if and only if they are due, in this
/// order, unless an allocation or the library failed; these four make no block. An agenda that is not refused ends
/// `Done` or `Memory`, unless the outcome names a fault, if there is room for the events that wait in its run.
///
/// - `NoScript`: there is no such agenda.
/// - `BadAgenda`: its length is no multiple of 24 bytes, or above 103,079,215,104 bytes.
/// - `NoFreeBlock`: the device has fewer blocks than are enough for the events that waited by the last turn whose
///   line the sink took, and these are above one heap.
/// - `FileChanged`, with line 0: the library is not visible to proofs, said a length of the agenda, and a read in
///   front of it returned nothing.
/// - `Memory`: an allocation failed, before the first output.
///
/// All other outcomes are those of [`run_words`](crate::run_words).
pub fn sim_words<H: Host, L: Library, K: Rack, O: Sink, G: Gate>(
    context: &Context<H, G>,
    words: &[String],
    roster: Vec<Option<Box<dyn Handler + Send>>>,
    library: &mut L,
    rack: &mut K,
    out: &mut O,
) -> Ended<K::Slot>
where
    H::Dir: Send,
    K::Slot: Send + Sync,
    requires roster { (1 ≤ length roster.items) × (length roster.items ≤ 65536) }
    requires library { L.faults library.old < 2 ^ 63 }
    requires rack { K.faults rack.old < 2 ^ 63 }
    requires sink { O.faults out.old < 2 ^ 63 }
    ensures { SimsWords L.Library K.Rack O.Sink K.Slot.shown words.now (places_of stands roster.items) library.old library.new rack.old rack.new out.old out.new result }
{
    let found = match read_sim_words(context.alloc, words) {
        Ok(found) => found,
        Err(Memory) => return without_blocks(context.alloc, End::Memory),
    };
    let Some(arguments) = found else {
        return without_blocks(context.alloc, End::Usage);
    };
    let files = ppq_files::Context {
        rt: context.rt,
        alloc: context.alloc,
    };
    match record_length::<Triple, H, L>(&files, library, arguments.agenda) {
        Ok(bytes) => sim_over(context, &arguments, bytes, roster, library, rack, out),
        Err(fault) => without_blocks(context.alloc, end_of_length(fault, End::BadAgenda)),
    }
}
