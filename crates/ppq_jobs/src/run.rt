//! Runs an agenda.
ghost use Rattle.std.specs.Prelude.{◌≡◌, ◌≤◌, ◌+◌, ◌⊎◌, ℕ, All, length, map, false};
ghost use Rattle.ppq_event.specs.ppq_outside.Told.{TakesAll, TakesPart, Rose, Remembers, RepliesOnly};
ghost use Rattle.ppq_event.specs.ppq_queue.Shown.{AllTell};
ghost use Rattle.ppq_event.specs.ppq_handler.Roster.{places_of};
ghost use Rattle.ppq_event.specs.ppq_handler.Agenda.{journal};
ghost use Rattle.ppq_engine.specs.ppq_array.Kept.{SameSlots, HasFailed};
ghost use Rattle.ppq_engine.specs.ppq_queue.Holding.{AreNewSlots};
ghost use Rattle.ppq_engine.specs.ppq_files.Lengths.{IsRecordLength};
ghost use Rattle.ppq_engine.specs.ppq_files.Reading.{HasLength, IsReadWithin, ReadsFile};
ghost use Rattle.ppq_engine.specs.Refusal.{HasNoRoom};
ghost use Rattle.ppq_engine.specs.Ends.{class_of, HasSurelyRun, budget_refusal, BeganOrRefused};
ghost use Rattle.ppq_engine.specs.declared.end.End.TheVariants.{Done, ReadFault, WriteFault, DeviceFault, NoFreeBlock, FileChanged};
ghost use Rattle.ppq_jobs.specs.Asked.{asked_of, count_of, OfRun};
ghost use Rattle.ppq_jobs.specs.Ending.{IsOpened, RanOut, HasShrunk, EndsAgenda};

use crate::Agenda;
use crate::desk::Desk;
use crate::ends::{stopped, unloaded};
use ppq_engine::{End, Ended, Library, Sink, load_file, unopened};
use ppq_event::{Gate, Handler, Host, Queue, Sizes, Slot, Triple, simulate};
use std::alloc::Global;

// Loads the events of the agenda into an empty queue, and simulates them.
fn run_opened<H: Host, S: Slot + Send + Sync, L: Library, O: Sink, G: Gate>(
    rt: &H,
    alloc: Global,
    agenda: &Agenda<'_>,
    desk: &mut Desk,
    queue: Queue<S, Triple>,
    roster: &mut Vec<Option<Box<dyn Handler + Send>>>,
    library: &mut L,
    out: &mut O,
    gate: &G,
) -> (Queue<S, Triple>, End)
where
    H::Dir: Send,
    requires roster { (1 ≤ length roster.old.items) × (length roster.old.items ≤ 65536) }
    requires opened { IsOpened queue }
    requires round { desk.old.round ≡ queue.sizes }
    requires piece { 24 ≤ length desk.old.piece.items }
    requires bytes { IsRecordLength 24 agenda.now.bytes }
    requires length { HasLength (L.told library.old) agenda.now.name.now agenda.now.bytes }
    ensures ends { EndsAgenda (L.told library.old) (L.replied library.new) (asked_of agenda.now) (places_of stands roster.old.items) queue.slots result.0.slots queue.sizes (O.told out.old) (O.told out.new) (O.faults out.old) (O.faults out.new) (L.faults library.old) (L.faults library.new) result.1 }
    ensures slots { SameSlots queue.slots result.0.slots }
    ensures reads { ReadsFile L.told L.replied agenda.now.name.now agenda.now.bytes library.old library.new }
    ensures later { O.faults out.old ≤ O.faults out.new }
    ensures library_later { L.faults library.old ≤ L.faults library.new }
{
    queue.known();
    // So the count of the sink is known to be one of its type.
    let _faults = out.faults();
    let piece = desk.piece.as_mut_slice();
    let (queue, loaded) = load_file(
        rt,
        alloc,
        library,
        agenda.name,
        agenda.bytes,
        piece,
        queue,
        gate,
    );
    if let Err(fault) = loaded {
        return (queue, unloaded(fault, agenda.bytes));
    }
    let mut queue = queue;
    let ended = simulate(
        rt,
        &mut queue,
        roster,
        agenda.until,
        agenda.events,
        out,
        gate,
        &mut desk.round,
    );
    match ended {
        Ok(_ending) => (queue, End::Done),
        Err(fault) => (queue, stopped(fault)),
    }
}

/// Simulates an agenda with a roster of handlers, on a queue of these sizes over these blocks, which all come
/// back. The events of its file are added to the queue by all workers; then the journal of their run is written
/// to the sink, as `simulate` of `ppq_event` says. The memory for the lists of a round and a piece of the file is
/// allocated before the queue is opened.
///
/// `Done`: the sink took the journal, and no call of a block failed. `WriteFault`: the sink failed; it took a
/// prefix of it. `DeviceFault`: the block with that number failed; the sink took a prefix of it.
/// `NoFreeBlock`: a run of records found no free block, which comes only where the device has fewer blocks than
/// the greatest number of events waiting at once wants, and that number is above the capacity of one heap; whole
/// lines of some first turns were taken, and no call of a block failed. With any other end nothing was written.
/// `ReadFault`: the library failed. `FileChanged`, on line 0: the file ended at `got`, before the length `said`
/// of the agenda, and the library is not visible to proofs. `BudgetTooSmall` comes if and only if the budget is
/// below its fixed part, unless an allocation failed. `Memory`: an allocation failed. No other end comes.
///
/// What is said of the output holds where the contents of the blocks and of the library are visible to proofs.
/// When each end comes, and which blocks come back, is said of all blocks and libraries.
pub fn run_agenda<H: Host, S: Slot + Send + Sync, L: Library, O: Sink, G: Gate>(
    rt: &H,
    alloc: Global,
    agenda: &Agenda<'_>,
    sizes: Sizes,
    slots: Vec<S>,
    roster: Vec<Option<Box<dyn Handler + Send>>>,
    library: &mut L,
    out: &mut O,
    gate: &G,
) -> Ended<S>
where
    H::Dir: Send,
    requires roster { (1 ≤ length roster.items) × (length roster.items ≤ 65536) }
    requires slots { AreNewSlots sizes 24 (map S.shown slots.items) }
    requires bytes { IsRecordLength 24 agenda.now.bytes }
    requires length { HasLength (L.told library.old) agenda.now.name.now agenda.now.bytes }

    // What is written, where slots and library tell; and nothing unless the events were simulated.
    ensures done { result.end ≡ Done → AllTell (map S.shown slots.items) → OfRun (L.told library.old) (asked_of agenda.now) (places_of stands roster.items) (λ run. TakesAll (O.told out.old) (O.told out.new) (journal run)) }
    ensures part { AllTell (map S.shown slots.items) → OfRun (L.told library.old) (asked_of agenda.now) (places_of stands roster.items) (λ run. TakesPart (O.told out.old) (O.told out.new) (journal run)) }
    ensures full { result.end ≡ NoFreeBlock → AllTell (map S.shown slots.items) → OfRun (L.told library.old) (asked_of agenda.now) (places_of stands roster.items) (λ run. RanOut sizes (count_of (asked_of agenda.now)) run (O.told out.old) (O.told out.new)) }
    ensures nothing { HasSurelyRun (class_of result.end) ⊎ (O.told out.new ≡ O.told out.old) }

    // When each end comes.
    ensures answer { BeganOrRefused (budget_refusal sizes) result.end }
    ensures read { result.end ≡ ReadFault → Rose (L.faults library.old) (L.faults library.new) }
    ensures write { result.end ≡ WriteFault → Rose (O.faults out.old) (O.faults out.new) }
    ensures failed { (number : ℕ) → result.end ≡ DeviceFault number → HasFailed number (map S.shown result.blocks.items) }
    ensures full_any { result.end ≡ NoFreeBlock → HasNoRoom sizes false (count_of (asked_of agenda.now) + agenda.now.events) }
    ensures changed { (line said got : ℕ) → result.end ≡ FileChanged line said got → HasShrunk (L.told library.old) (L.replied library.new) agenda.now.name.now agenda.now.bytes line said got }
    ensures later { O.faults out.old ≤ O.faults out.new }
    ensures stays { ¬ (result.end ≡ WriteFault) → O.faults out.new ≡ O.faults out.old }

    // All blocks come back, each once, and no count of a block falls; after `Done` and `NoFreeBlock` no call of a block
    // failed.
    ensures blocks { SameSlots (map S.shown slots.items) (map S.shown result.blocks.items) }
    ensures unfailed { (result.end ≡ Done) ⊎ (result.end ≡ NoFreeBlock) → All (λ s. s.faults ≡ 0) (map S.shown result.blocks.items) }

    // No file changes, and the library's count rises only with `ReadFault`. It is asked for no length, and for no byte of
    // another file or past the agenda's length.
    ensures files { L.told library.new ≡ L.told library.old }
    ensures remembers { Remembers (L.replied library.old) (L.replied library.new) }
    ensures asks { RepliesOnly (L.replied library.old) (L.replied library.new) (IsReadWithin agenda.now.name.now agenda.now.bytes) }
    ensures library_later { L.faults library.old ≤ L.faults library.new }
    ensures library_stays { ¬ (result.end ≡ ReadFault) → L.faults library.new ≡ L.faults library.old }
{
    let Ok(desk) = Desk::new(alloc, &sizes) else {
        return Ended {
            end: End::Memory,
            blocks: slots,
        };
    };
    let queue: Queue<S, Triple> = match Queue::open(alloc, sizes, slots) {
        Ok(queue) => queue,
        Err((blocks, fault)) => {
            return Ended {
                end: unopened(fault),
                blocks,
            };
        }
    };
    let mut desk = desk;
    let mut roster = roster;
    let (queue, end) = run_opened(
        rt,
        alloc,
        agenda,
        &mut desk,
        queue,
        &mut roster,
        library,
        out,
        gate,
    );
    Ended {
        end,
        blocks: queue.close(),
    }
}
