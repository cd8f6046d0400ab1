//! Executes the commands of a script.
ghost use Rattle.std.specs.Prelude.{◌≡◌, ◌≤◌, ◌<◌, ◌⊎◌, List, ℕ, Option, [], Some, All, OnOk, IfErr, IsTrue, length, map};
ghost use Rattle.ppq_script.specs.ppq_outside.Shown.{AllTell};
ghost use Rattle.ppq_script.specs.ppq_outside.Told.{TakesAll, TakesPart, Rose, Remembers, RepliesOnly};
ghost use Rattle.ppq_load.specs.ppq_budget.Sizes.{batch_of, fixed_of};
ghost use Rattle.ppq_load.specs.ppq_array.Kept.{SameSlots, HasFailed};
ghost use Rattle.ppq_script.specs.Reading.{command_list};
ghost use Rattle.ppq_load.specs.ppq_queue.Holding.{AreNewSlots};
ghost use Rattle.ppq_load.specs.Refusal.{HasRoom, HasNoRoom};
ghost use Rattle.ppq_engine.specs.Calls.{MayRun, RunsAll, EndsRun, SinkCounts, LibraryCounts, LibraryStays};
ghost use Rattle.ppq_engine.specs.Loads.{most_of, least_of, begins_limit, FitsWritten};
ghost use Rattle.ppq_engine.specs.Output.{output_of, load_of, crest_of, given_of, AreFilesOf, KeepsLengths, TakesWithin};
ghost use Rattle.ppq_engine.specs.Running.{ScriptStopped, StopsQuiet, HasChanged, queue_end, open_end};
ghost use Rattle.ppq_engine.specs.Files.{IsReadInScript};
ghost use Rattle.ppq_engine.specs.Outcome.{TakesBeforeLoad, FaultBeforeFile, PutsRest, PutsStopped};
ghost use Rattle.ppq_engine.specs.Work.{IsWithinWork, TransfersFew};
ghost use Rattle.ppq_engine.specs.Ends.{budget_refusal, BeganOrRefused, IsCompleted, IsQuiet, NoneFailed};
ghost use Rattle.ppq_engine.specs.declared.end.End.TheVariants.{Done, ReadFault, WriteFault, DeviceFault, NoFreeBlock, BudgetTooSmall, Memory, FileChanged};

use crate::desk::Desk;
use crate::machine::Machine;
use crate::stop::Stop;
use crate::world::World;
use crate::{End, Ended};
use ppq_load::{OpenFault, Queue, QueueFault, Sizes};
use ppq_record::record_laws;
use ppq_script::{Failed, Fields, Form, Gate, Host, Library, Script, Sink, Slot};
use ppq_text::{Gathered, OnHeap};
use std::alloc::Global;

impl<S: Slot + Send + Sync, R: Fields + Send + Sync> Machine<S, R> {
    // Runs the commands of this script in order up to the first that does not run to its end, and gathers
    // what they print. It returns the machine.
    fn run<H: Host, L: Library, O: Sink, G: Gate>(
        self,
        world: &World<'_, H, G>,
        script: &Script<R>,
        library: &mut L,
        out: &mut O,
    ) -> (Machine<S, R>, Result<(), Stop>)
    where
        H::Dir: Send,
        requires may { MayRun (L.told library.old) script.now self.queue }
        requires block { 0 < self.queue.sizes.block }
        requires gathered { self.desk.gathered ≡ [] }
        ensures runs { OnOk result.1 (RunsAll R.Fields world.now.form (L.told library.old) script.now self.queue result.0.queue (O.told out.old) (O.told out.new) result.0.desk.gathered) }
        ensures stopped { IfErr result.1 (ScriptStopped R.Fields world.now.form (L.told library.old) script.now self.queue.slots (O.told out.old) (O.told out.new) result.0.desk.gathered self.queue.sizes result.0.queue.slots) }
        ensures quiet { IfErr result.1 (StopsQuiet self.queue.slots result.0.queue.slots) }
        ensures slots { SameSlots self.queue.slots result.0.queue.slots }
        ensures counted { IsWithinWork R.Fields (command_list script.now) self.queue.sizes result.0.queue }
        ensures library { LibraryCounts (L.told library.old) (L.told library.new) (L.replied library.old) (L.replied library.new) script.now (L.faults library.old) (L.faults library.new) result.1 }
        ensures sink { SinkCounts (O.faults out.old) (O.faults out.new) result.1 }
    {
        record_laws::<R>();
        script.checked();
        let mut machine = self;
        let mut place = 0;
        'commands: while place < script.len() {
            let part = script.part(place);
            let count = part.count();
            let (back, result) = machine.advance(world, script, place, part, library, out);
            machine = back;
            match result {
                Ok(()) => {}
                Err(stop) => return (machine, Err(stop)),
            }
            machine.queue.known();
            place += count;
        }
        (machine, Ok(()))
    }
}

/// A fault of the queue as an end: `NoFreeBlock` or `DeviceFault`.
pub fn fault_end(fault: QueueFault) -> End
    ensures { result ≡ queue_end fault }
{
    match fault {
        QueueFault::NoFreeBlock => End::NoFreeBlock,
        QueueFault::Device { number } => End::DeviceFault { number },
    }
}

/// Why a queue was not opened, as an end: `BudgetTooSmall` or `Memory`.
pub fn unopened(fault: OpenFault) -> End
    ensures { result ≡ open_end fault }
{
    match fault {
        OpenFault::TooSmall { need } => End::BudgetTooSmall { need },
        OpenFault::Memory => End::Memory,
    }
}

/// Puts what was gathered, before this end, and returns it; or `WriteFault` if the sink failed. It is one call of the sink.
pub fn put_rest<H: Host, O: Sink>(
    rt: &H,
    end: End,
    gathered: &mut Gathered<OnHeap>,
    out: &mut O,
) -> End
    ensures puts { PutsRest (O.told out.old) (O.told out.new) (O.faults out.old) (O.faults out.new) gathered.old end result }
    ensures later { O.faults out.old ≤ O.faults out.new }
{
    match gathered.put(rt, out) {
        Ok(()) => end,
        Err(Failed) => End::WriteFault,
    }
}

/// Puts what was gathered before the commands stopped, unless it was the sink that stopped them, and returns why they
/// stopped, as an end; or `WriteFault` if the sink failed.
pub fn put_stopped<H: Host, O: Sink>(
    rt: &H,
    stop: Stop,
    gathered: &mut Gathered<OnHeap>,
    out: &mut O,
) -> End
    ensures puts { PutsStopped (O.told out.old) (O.told out.new) (O.faults out.old) (O.faults out.new) gathered.old result stop }
    ensures later { O.faults out.old ≤ O.faults out.new }
{
    match stop {
        Stop::Sink => End::WriteFault,
        Stop::Queue { fault } => put_rest(rt, fault_end(fault), gathered, out),
        Stop::Read => put_rest(rt, End::ReadFault, gathered, out),
        Stop::Memory => put_rest(rt, End::Memory, gathered, out),
        Stop::Changed { line, said, got } => {
            put_rest(rt, End::FileChanged { line, said, got }, gathered, out)
        }
    }
}

// Runs the commands on an empty queue with this desk, and puts all that was gathered, also where they stop,
// unless it is the sink that stops them. It allocates only for commands that begin a session.
fn run_opened<
    H: Host,
    S: Slot + Send + Sync,
    R: Fields + Send + Sync,
    L: Library,
    O: Sink,
    G: Gate,
>(
    world: &World<'_, H, G>,
    script: &Script<R>,
    desk: Desk<R>,
    queue: Queue<S, R>,
    library: &mut L,
    out: &mut O,
) -> (Queue<S, R>, End)
where
    H::Dir: Send,
    requires may { MayRun (L.told library.old) script.now queue }
    requires gathered { desk.gathered ≡ [] }
    requires round { desk.list.room ≡ batch_of queue.sizes }
    requires piece { R.WIDTH ≤ length desk.room.items }
    ensures ends { EndsRun R.Fields world.now.form (L.told library.old) (L.replied library.new) script.now queue result.0 (O.told out.old) (O.told out.new) (O.faults out.old) (O.faults out.new) (L.faults library.old) (L.faults library.new) result.1 }
    ensures slots { SameSlots queue.slots result.0.slots }
    ensures transfers { TransfersFew R.Fields (command_list script.now) queue.sizes result.0.slots }
    ensures library { LibraryStays (L.told library.old) (L.told library.new) (L.replied library.old) (L.replied library.new) script.now (L.faults library.old) (L.faults library.new) }
    ensures later { O.faults out.old ≤ O.faults out.new }
{
    record_laws::<R>();
    queue.known();
    let machine = Machine { queue, desk };
    let (machine, result) = machine.run(world, script, library, out);
    let Machine { queue, desk } = machine;
    queue.known();
    let mut gathered = desk.gathered;
    match result {
        Ok(()) => match gathered.put(world.rt, out) {
            Ok(()) => (queue, End::Done),
            Err(Failed) => (queue, End::WriteFault),
        },
        Err(stop) => (queue, put_stopped(world.rt, stop, &mut gathered, out)),
    }
}

/// Runs a checked script on a queue of these sizes over these blocks, which all come back. Its output
/// goes to the sink in this form, gathered into pieces of tens of kilobytes. Its files are read by
/// pieces of as many records as each worker has a block. The memory for both is allocated before the
/// queue is opened.
///
/// `Done`: the sink took the script's output, and no call of a block failed. `WriteFault`: the sink
/// failed; it took a prefix of it. `ReadFault`: the library failed. `DeviceFault`: the block with that
/// number failed. `NoFreeBlock`: a run of records found no free block, which comes only where the
/// device has fewer blocks than the script's load wants, and that load is above the capacity of one
/// heap or the script begins a limit session; at least what all commands up to such a load print was
/// taken, and no call of a block failed. `FileChanged`: the file of the command on that line ended at
/// `got`, before the length `said` that the script keeps, and the library is not visible to proofs.
/// `BudgetTooSmall` comes if and only if the budget is below its fixed part, unless an allocation failed;
/// nothing was written then. On `Memory` nothing was written, or what the commands before a `bulk`, `gen`,
/// `bulk_begin` or `limit_begin` print: such a command allocates for its session. No other end comes.
///
/// What is said of the output holds where the contents of the blocks and of the library are visible to
/// proofs; where the script reads no file, the library's need not be. When each end comes, and which
/// blocks come back, is said of all blocks and libraries.
pub fn run_script<
    H: Host,
    S: Slot + Send + Sync,
    R: Fields + Send + Sync,
    L: Library,
    O: Sink,
    G: Gate,
>(
    rt: &H,
    alloc: Global,
    script: &Script<R>,
    sizes: Sizes,
    slots: Vec<S>,
    library: &mut L,
    out: &mut O,
    gate: &G,
    form: Form,
) -> Ended<S>
where
    H::Dir: Send,
    requires checked { IsTrue script.now.checked }
    requires workers { script.now.workers ≡ sizes.workers }
    requires slots { AreNewSlots sizes R.WIDTH (map S.shown slots.items) }
    requires lengths { (files : List ℕ → Option (List ℕ)) → L.told library.old ≡ Some files → KeepsLengths files script.now }

    // What is written, where slots and library tell.
    ensures done { result.end ≡ Done → AllTell (map S.shown slots.items) → (files : List ℕ → Option (List ℕ)) → AreFilesOf (L.told library.old) script.now files → TakesAll (O.told out.old) (O.told out.new) (output_of R.Fields form (given_of R.Fields files script.now) (command_list script.now)) }
    ensures part { AllTell (map S.shown slots.items) → (files : List ℕ → Option (List ℕ)) → AreFilesOf (L.told library.old) script.now files → TakesPart (O.told out.old) (O.told out.new) (output_of R.Fields form (given_of R.Fields files script.now) (command_list script.now)) }
    ensures within { result.end ≡ NoFreeBlock → AllTell (map S.shown slots.items) → (files : List ℕ → Option (List ℕ)) → AreFilesOf (L.told library.old) script.now files → TakesWithin R.Fields form (given_of R.Fields files script.now) (O.told out.old) (O.told out.new) sizes (command_list script.now) }
    ensures memory { result.end ≡ Memory → (O.told out.new ≡ O.told out.old) ⊎ TakesBeforeLoad R.Fields form (L.told library.old) script.now (map S.shown slots.items) (O.told out.old) (O.told out.new) }
    ensures file { FaultBeforeFile R.Fields form (L.told library.old) script.now (map S.shown slots.items) (O.told out.old) (O.told out.new) result.end }
    ensures nothing { (need : ℕ) → result.end ≡ BudgetTooSmall need → O.told out.new ≡ O.told out.old }

    // When each end comes.
    ensures answer { BeganOrRefused (budget_refusal sizes) result.end }
    ensures read { result.end ≡ ReadFault → Rose (L.faults library.old) (L.faults library.new) }
    ensures write { result.end ≡ WriteFault → Rose (O.faults out.old) (O.faults out.new) }
    ensures failed { (number : ℕ) → result.end ≡ DeviceFault number → HasFailed number (map S.shown result.blocks.items) }
    ensures above { result.end ≡ NoFreeBlock → AllTell (map S.shown slots.items) → (files : List ℕ → Option (List ℕ)) → AreFilesOf (L.told library.old) script.now files → HasNoRoom sizes (begins_limit (command_list script.now)) (load_of R.Fields (given_of R.Fields files script.now) (command_list script.now)) }
    ensures above_any { result.end ≡ NoFreeBlock → HasNoRoom sizes (begins_limit (command_list script.now)) (most_of R.Fields (command_list script.now)) }
    ensures changed { (line said got : ℕ) → result.end ≡ FileChanged line said got → HasChanged (L.told library.old) (L.replied library.new) script.now line said got }
    ensures later { O.faults out.old ≤ O.faults out.new }
    ensures stays { ¬ (result.end ≡ WriteFault) → O.faults out.new ≡ O.faults out.old }

    // A budget that is large enough for its fixed part, a load for which the device has room, or one heap if no
    // limit session begins, and no fault of the sink, the library or a block.
    ensures complete { fixed_of sizes ≤ sizes.memory → AllTell (map S.shown slots.items) → (files : List ℕ → Option (List ℕ)) → AreFilesOf (L.told library.old) script.now files → HasRoom sizes (begins_limit (command_list script.now)) (load_of R.Fields (given_of R.Fields files script.now) (command_list script.now)) → IsQuiet (O.faults out.old) (O.faults out.new) → IsQuiet (L.faults library.old) (L.faults library.new) → NoneFailed (map S.shown result.blocks.items) → IsCompleted (L.told library.old) result.end }
    ensures complete_any { fixed_of sizes ≤ sizes.memory → HasRoom sizes (begins_limit (command_list script.now)) (most_of R.Fields (command_list script.now)) → IsQuiet (O.faults out.old) (O.faults out.new) → IsQuiet (L.faults library.old) (L.faults library.new) → NoneFailed (map S.shown result.blocks.items) → IsCompleted (L.told library.old) result.end }

    // All blocks come back, each once, and no count of a block falls; after `Done` and `NoFreeBlock` no call of a block
    // failed. The device was used: each record above the budget, when the multiset was greatest outside sessions, was
    // written.
    ensures blocks { SameSlots (map S.shown slots.items) (map S.shown result.blocks.items) }
    ensures unfailed { (result.end ≡ Done) ⊎ (result.end ≡ NoFreeBlock) → All (λ s. s.faults ≡ 0) (map S.shown result.blocks.items) }
    ensures used { result.end ≡ Done → AllTell (map S.shown slots.items) → (files : List ℕ → Option (List ℕ)) → AreFilesOf (L.told library.old) script.now files → FitsWritten (crest_of R.Fields (given_of R.Fields files script.now) (command_list script.now)) sizes (map S.shown result.blocks.items) }
    ensures used_any { result.end ≡ Done → FitsWritten (least_of R.Fields (command_list script.now)) sizes (map S.shown result.blocks.items) }

    // Few blocks are written for the records that the script pushes and the sessions that it begins, and no more are
    // read than written, however the run ends.
    ensures transfers { TransfersFew R.Fields (command_list script.now) sizes (map S.shown result.blocks.items) }

    // No file changes, and the library's count rises only with `ReadFault`, or with `WriteFault`, before which a read may have
    // failed. It is asked for no length, and for no byte past the length that the script keeps of a file.
    ensures files { L.told library.new ≡ L.told library.old }
    ensures remembers { Remembers (L.replied library.old) (L.replied library.new) }
    ensures asks { RepliesOnly (L.replied library.old) (L.replied library.new) (IsReadInScript script.now) }
    ensures library_later { L.faults library.old ≤ L.faults library.new }
    ensures library_stays { ¬ (result.end ≡ ReadFault) → ¬ (result.end ≡ WriteFault) → L.faults library.new ≡ L.faults library.old }
{
    let Ok(desk) = Desk::new(alloc, &sizes) else {
        return Ended {
            end: End::Memory,
            blocks: slots,
        };
    };
    let queue: Queue<S, R> = match Queue::open(alloc, sizes, slots) {
        Ok(queue) => queue,
        Err((blocks, fault)) => {
            return Ended {
                end: unopened(fault),
                blocks,
            };
        }
    };
    let world = World {
        rt,
        alloc,
        gate,
        form,
    };
    let (queue, end) = run_opened(&world, script, desk, queue, library, out);
    Ended {
        end,
        blocks: queue.close(),
    }
}
