//! The top call of a script.
ghost use Rattle.std.specs.Prelude.{◌≡◌, ◌≤◌, ◌<◌, ◌⊎◌, ◌^◌, ℕ, [], None, false, IfSome, map, All};
ghost use Rattle.ppq_jobs.specs.ppq_engine.ppq_array.Kept.{HasFailed};
ghost use Rattle.ppq_words.specs.ppq_outside.Told.{Remembers};
ghost use Rattle.ppq_words.specs.ppq_outside.Made.{HasMadeJust};
ghost use Rattle.ppq_words.specs.Reading.{texts_of};
ghost use Rattle.ppq_words.specs.Strays.{may_run};
ghost use Rattle.ppq_jobs.specs.ppq_engine.Ends.{NoFault};
ghost use Rattle.ppq_jobs.specs.ppq_engine.declared.end.End.TheVariants as ends;
ghost use Rattle.ppq_jobs.specs.ppq_engine.declared.end.End.TheVariants.{Done, Usage, ReadFault, WriteFault, DeviceFault, NoFreeBlock, NoDevice};
ghost use Rattle.ppq_cli.specs.Device.{AreBlocks};
ghost use Rattle.ppq_cli.specs.Outside.{MayWrite};
ghost use Rattle.ppq_cli.specs.Replies.{RefusalIsRight, CompletesAsGiven, AsksAreRight};
ghost use Rattle.ppq_cli.specs.RunWords.{reading, blocks_given, OfWords, OfScript, WritesAll, WritesPart, WritesRoom, WritesToFile, WritesToLoad, IfRan, UsesDevice, TransfersBounded, AreTransfersRight};
ghost use Rattle.ppq_cli.specs.RunWords.{load_by, crest_by, most_by, least_by, refusal_of, IsAnswer, IsTooLarge, Completes};

use crate::context::Context;
use crate::device::without_blocks;
use crate::kinds::run_bytes;
use crate::load::{LONGEST, end_of};
use ppq_files::read_whole;
use ppq_jobs::{End, Ended};
use ppq_words::{Gate, Host, Library, Memory, Rack, Sink, read_words};
use std::alloc::Global;

/// Does all that the program does with a script, with the outside handed in: reads the arguments, loads the script
/// that they name and checks it and its files, makes the device, and executes the script over it. The
/// records are those that the script's head names: blocks and record files are made of them, and of a
/// budget in bytes as many of them count as fit.
///
/// After `Done` the sink took exactly the script's output in the form that the arguments say, which is that of
/// one multiset, ordered by whole records and as the head says, whatever the sizes; after every other outcome it
/// took a prefix of it. All blocks that the rack made come back, each once; they are of the device that the
/// arguments name. After `Done` what the budget cannot hold was written to them, and no call of a block failed;
/// files are only read, and never past a length that the library said. Whatever the outcome, few blocks are
/// written for the records that the script pushes, the heaps that these fill and the sessions that it begins,
/// unless twice these heaps and `workers + 2` times the sessions come to 8^8 or more; and no block is read more
/// often than it is written. Each outcome comes only for its cause, and `Usage`, `NoScript`, `ScriptTooLong`,
/// `BadLine` and `BudgetTooSmall` if and only if they are due, in this order, unless an allocation or a read
/// failed; these five make no block, and without a reading nothing of the outside is called. No count of faults
/// falls, and none rises but with the outcome that names it, and the library's with `WriteFault`, before which
/// a read may have failed; so the same outside can be handed in again. A script that is not refused ends `Done`
/// or `Memory`, unless the outcome names a fault, if there is room for its load: on the device, or in one heap
/// where the script begins no limit session. This is said of an outside that is visible to proofs; of any other
/// library, the outcomes, how few blocks are written and read, and the output of a script that reads no file,
/// are those of the bytes that its reads returned as the script. That script ends `Done`, `Memory` or
/// `FileChanged`, unless it is refused or the outcome names a fault, if there is room for the greatest load
/// that its commands can lead to.
///
/// What the outcomes say, besides `Done`:
///
/// - `Usage`: the arguments have no reading.
/// - `NoScript`, `ScriptTooLong`: there is no such script, or it is longer than 1,048,576 bytes.
/// - `BadLine`: the first line that is bad, or names a file that is absent, is not of whole records,
///   or has more than 4,294,967,296.
/// - `BudgetTooSmall`: the budget is below its fixed part, `need`, in records or in bytes as the budget
///   is given.
/// - `NoDevice`, `ReadFault`, `WriteFault`: the count of faults of the rack, the library or the sink
///   rose in this call.
/// - `DeviceFault`: the block with that number, which comes back, failed.
/// - `NoFreeBlock`: the device has fewer blocks than are enough for the load, and the load is above one
///   heap or the script begins a limit session; the sink took at least what each prefix of the script
///   prints for whose load there is room, and no call of a block failed.
/// - `FileChanged`: the library is not visible, said a length, and a read in front of it returned
///   nothing. The line is 0 for the script itself.
/// - `Memory`: an allocation failed. The sink took nothing, or just what the commands in front of a
///   `bulk`, `gen`, `bulk_begin` or `limit_begin` line print; after `ReadFault` and `FileChanged`, of a
///   `bulk` line.
pub fn run_words<H: Host, L: Library, K: Rack, O: Sink, G: Gate>(
    rt: &H,
    alloc: Global,
    words: &[String],
    library: &mut L,
    rack: &mut K,
    gate: &G,
    out: &mut O,
) -> Ended<K::Slot>
where
    H::Dir: Send,
    K::Slot: Send + Sync,
    requires library { L.faults library.old < 2 ^ 63 }
    requires rack { K.faults rack.old < 2 ^ 63 }
    requires sink { O.faults out.old < 2 ^ 63 }

    // What is written: the output to the sink, what is above the budget to the blocks that were made; files are only read.
    ensures done { result.end ≡ Done → K.tells rack.old → OfScript L.told library.old words.now (WritesAll O.told out.old out.new) }
    ensures part { K.tells rack.old → OfScript L.told library.old words.now (WritesPart O.told out.old out.new) }
    ensures nothing { MayWrite result.end ⊎ (O.told out.new ≡ O.told out.old) }
    ensures room { result.end ≡ NoFreeBlock → K.tells rack.old → OfScript L.told library.old words.now (WritesRoom O.told out.old out.new) }
    ensures to_file { result.end ≡ ReadFault → K.tells rack.old → OfScript L.told library.old words.now (WritesToFile O.told out.old out.new) }
    ensures to_load { result.end ≡ ends.Memory → K.tells rack.old → OfScript L.told library.old words.now (WritesToLoad O.told out.old out.new) }
    ensures ran { IfRan words.now K.tells rack.old L.told library.old L.replied library.new O.told out.old out.new K.Slot.shown result }
    ensures used { result.end ≡ Done → K.tells rack.old → OfScript L.told library.old words.now (UsesDevice crest_by K.Slot.shown result) }
    ensures used_any { result.end ≡ Done → OfScript L.told library.old words.now (UsesDevice least_by K.Slot.shown result) }
    ensures transfers { OfScript L.told library.old words.now (TransfersBounded K.Slot.shown result) }
    ensures transfers_any { AreTransfersRight words.now L.told library.old L.replied library.new K.Slot.shown result }
    ensures reads { OfWords words.now (λ r. AsksAreRight (L.told library.old) (L.replied library.old) (L.replied library.new) r result.end) }

    // The outside: all blocks come back, and a count of faults rises only with the outcome that names it; but a read may have failed before `WriteFault`.
    ensures made { OfWords words.now (λ r. HasMadeJust (K.made rack.old r.device) (K.made rack.new r.device) (map (λ slot. (K.Slot.shown slot).number) result.blocks.items)) }
    ensures blocks { OfWords words.now (λ r. AreBlocks (blocks_given r) result.end (map K.Slot.shown result.blocks.items)) }
    ensures unfailed { (result.end ≡ Done) ⊎ (result.end ≡ NoFreeBlock) → All (λ s. s.faults ≡ 0) (map K.Slot.shown result.blocks.items) }
    ensures failed { (number : ℕ) → result.end ≡ DeviceFault number → HasFailed number (map K.Slot.shown result.blocks.items) }
    ensures rack_tells { K.tells rack.old → K.tells rack.new }
    ensures files { L.told library.new ≡ L.told library.old }
    ensures remembers { Remembers (L.replied library.old) (L.replied library.new) }
    ensures read { result.end ≡ ReadFault → L.faults library.old < L.faults library.new }
    ensures write { result.end ≡ WriteFault → O.faults out.old < O.faults out.new }
    ensures device { result.end ≡ NoDevice → K.faults rack.old < K.faults rack.new }
    ensures library_later { L.faults library.old ≤ L.faults library.new }
    ensures library_stays { ¬ (result.end ≡ ReadFault) → ¬ (result.end ≡ WriteFault) → L.faults library.new ≡ L.faults library.old }
    ensures rack_later { K.faults rack.old ≤ K.faults rack.new }
    ensures rack_stays { ¬ (result.end ≡ NoDevice) → K.faults rack.new ≡ K.faults rack.old }
    ensures sink_later { O.faults out.old ≤ O.faults out.new }
    ensures sink_stays { ¬ (result.end ≡ WriteFault) → O.faults out.new ≡ O.faults out.old }

    // Arguments without a reading: nothing is made, and library, rack and sink are left alone.
    ensures usage { result.end ≡ Usage → reading words.now ≡ None }
    ensures no_reading { reading words.now ≡ None → (result.end ≡ Usage) ⊎ (result.end ≡ ends.Memory) }
    ensures early { reading words.now ≡ None → may_run (texts_of words.now) ≡ false → result.end ≡ Usage }
    ensures none { reading words.now ≡ None → result.blocks.items ≡ [] }
    ensures unasked { reading words.now ≡ None → (library.new ≡ library.old) × ((rack.new ≡ rack.old) × (out.new ≡ out.old)) }

    // When each other outcome comes.
    ensures answer { IfSome (L.told library.old) (λ files. IsAnswer (refusal_of (reading words.now) files) result.end) }
    ensures refused { OfWords words.now (λ r. RefusalIsRight (L.told library.old) (L.replied library.new) r result.end) }
    ensures above { result.end ≡ NoFreeBlock → K.tells rack.old → OfScript L.told library.old words.now (IsTooLarge load_by) }
    ensures above_any { result.end ≡ NoFreeBlock → OfScript L.told library.old words.now (IsTooLarge most_by) }

    // Completeness: a script that is not refused, with room for its load, is done, unless an allocation or the outside failed.
    ensures complete { K.tells rack.old → NoFault result.end → Completes load_by L.told library.old words.now result.end }
    ensures complete_any { NoFault result.end → Completes most_by L.told library.old words.now result.end }
    ensures complete_given { NoFault result.end → OfWords words.now (λ r. CompletesAsGiven (L.told library.old) (L.replied library.new) r result.end) }
{
    let found = match read_words(alloc, words) {
        Ok(found) => found,
        Err(Memory) => return without_blocks(alloc, End::Memory),
    };
    let Some(arguments) = found else {
        return without_blocks(alloc, End::Usage);
    };
    let files = ppq_files::Context { rt, alloc };
    match read_whole(&files, library, arguments.script, LONGEST) {
        Ok(bytes) => {
            let context = Context { rt, alloc, gate };
            run_bytes(&context, &bytes, &arguments, library, rack, out)
        }
        Err(fault) => without_blocks(alloc, end_of(fault)),
    }
}
