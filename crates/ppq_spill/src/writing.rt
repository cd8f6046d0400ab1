//! Merging runs into blocks, and writing them.
ghost use Rattle.std.specs.Prelude.{◌≡◌, ◌-◌, ◌≤◌, [], length, All, vec_capacity};
ghost use Rattle.ppq_fetch.specs.ppq_array.Owner.{HasBlock};
ghost use Rattle.ppq_fetch.specs.ppq_array.Holdings.{internal_buffers, RunHasBlock};
ghost use Rattle.ppq_spill.specs.Moves.{with_buffers};
ghost use Rattle.ppq_spill.specs.Writing.{MayAppend, BlockEnds, MayWriteRuns, BodyRests, RunsEnd, block_in};

use crate::PassBody;
use crate::merging::{merge_least, write_heads};
use crate::new_array::NewArray;
use ppq_fetch::{
    Berth, BlockBuf, ExternalArray, Host, InternalArray, Job, JobKind, Record, Slot, Supply,
    give_buffer, record_laws, run_job,
};

// Merges all runs in buffers of a body and a sorted list into blocks, and writes them to the slots of a
// new array, a block for each. Where a write fails, it ends there and gives that slot. It costs as many
// block writes as there are slots, and for each record a match on each level of the tree.
pub(crate) fn write_runs<H: Host, S: Slot, R: Record>(
    rt: &H,
    body: &mut PassBody<S, R>,
    sorted: &[R],
    making: &mut NewArray<S, R>,
) -> Option<Berth<S, R>>
    requires may { MayWriteRuns S.shown R.WIDTH (block_in body.old.lanes.idle) body.old sorted.now making.old }
    ensures rests { BodyRests (block_in body.old.lanes.idle) body.old body.new }
    ensures outcome { RunsEnd R.Ord.cmp R.record_of R.WIDTH (block_in body.old.lanes.idle) S.shown sorted.now body.old body.new making.old making.new result }
{
    record_laws::<R>();
    write_heads(&mut body.tree, &body.runs.internal, sorted);
    let mut at = 0;
    while let Some(berth) = making.berths.pop_front() {
        let mut buf = body.lanes.idle.pop_front().unwrap();
        buf.clear();
        merge_least(
            &mut body.tree,
            &mut body.runs.internal,
            sorted,
            &mut at,
            &mut buf,
        );
        let (buf, failed) = write_block(rt, &mut making.made, berth, buf);
        body.lanes.idle.push_back(buf);
        match failed {
            Some(berth) => return Some(berth),
            None => {}
        }
    }
    None
}

// Writes a buffer's records to a slot, as the last block of a run. Where that fails, it gives the slot.
pub(crate) fn write_block<H: Host, S: Slot, R: Record>(
    rt: &H,
    array: &mut ExternalArray<S, R>,
    berth: Berth<S, R>,
    buf: BlockBuf<R>,
) -> (BlockBuf<R>, Option<Berth<S, R>>)
    requires may { MayAppend S.shown R.WIDTH berth.slot buf array.old }
    ensures buf { result.0 ≡ buf }
    ensures outcome { BlockEnds R.record_of R.WIDTH S.shown berth.slot buf.items array.old array.new result.1 }
{
    let minimum = buf.at(0);
    let count = buf.len();
    let mut job = Job {
        slot: berth,
        buf,
        kind: JobKind::Write,
        done: None,
    };
    run_job(rt, &mut job);
    let Job {
        slot,
        buf,
        kind: _,
        done,
    } = job;
    let Some(answer) = done else { unreachable!() };
    match answer {
        Ok(()) => {
            array.append(slot, minimum, count);
            (buf, None)
        }
        Err(_) => (buf, Some(slot)),
    }
}

// Gives all buffers of runs back, and with them what records they have left.
pub(crate) fn release_runs<S: Slot, R: Record, P: Supply<S, R>>(
    supply: &mut P,
    internal: &mut Vec<InternalArray<R>>,
)
    requires room { internal_buffers internal.old.items ≤ (P.stock supply.old).buffer_room }
    requires blocks { All (RunHasBlock (P.stock supply.old).block) internal.old.items }
    ensures none { internal.new.items ≡ [] }
    ensures room { vec_capacity internal.new ≡ vec_capacity internal.old }
    ensures stock { P.stock supply.new ≡ with_buffers (P.stock supply.old) (P.stock supply.new).sure_buffers ((P.stock supply.old).buffer_room - internal_buffers internal.old.items) }
    ensures home { P.home supply.new ≡ P.home supply.old }
{
    while let Some(mut run) = internal.pop() {
        run.consume(run.len());
        release_run(supply, run);
    }
}

// Gives all buffers of a run back that was consumed.
fn release_run<S: Slot, R: Record, P: Supply<S, R>>(supply: &mut P, run: InternalArray<R>)
    requires spent { run.live ≡ [] }
    requires room { length run.spent ≤ (P.stock supply.old).buffer_room }
    requires blocks { All (HasBlock (P.stock supply.old).block) run.spent }
    ensures stock { P.stock supply.new ≡ with_buffers (P.stock supply.old) (P.stock supply.new).sure_buffers ((P.stock supply.old).buffer_room - length run.spent) }
    ensures home { P.home supply.new ≡ P.home supply.old }
{
    let mut run = run;
    while let Some(buf) = run.take_spent() {
        give_buffer(supply, buf);
    }
}
