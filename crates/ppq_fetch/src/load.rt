//! Loading the next block of a run.
ghost use Rattle.std.specs.Prelude.{◌≡◌, ◌++◌, ◌∷◌, ◌*◌, ◌<◌, ◌-◌, ◌^◌, [], length, IsSome, IfSome, IfNone};
ghost use Rattle.ppq_array.specs.Run.{buffers_of};
ghost use Rattle.ppq_fetch.specs.Steps.{MayLoad, BlockLoaded, BlockLost};
ghost use Rattle.ppq_fetch.specs.Beside.{BlockLifted, MayLand, BlockLanded, BlockFailed};

use ppq_array::{
    Berth, BufList, ExternalArray, Host, Record, Slot, Supply, free_slot, record_laws,
};
use ppq_lane::{Job, JobKind, run_job};

// Loads the next block of a run into an idle buffer; its slot goes to the supply. Where the read fails,
// it gives the slot's number.
pub(crate) fn load_block<H: Host, S: Slot, R: Record, P: Supply<S, R>>(
    rt: &H,
    array: &mut ExternalArray<S, R>,
    idle: &mut BufList<R>,
    supply: &mut P,
) -> Option<u32>
    requires may { MayLoad S.shown R.WIDTH array.old idle.old (P.stock supply.old) }
    ensures loaded { IfNone result (BlockLoaded R.record_of R.WIDTH S.shown array.old array.new idle.old idle.new (P.stock supply.old) (P.stock supply.new)) }
    ensures lost { IfSome result (λ number. BlockLost R.record_of R.WIDTH S.shown number array.old array.new idle.old idle.new (P.stock supply.old) (P.stock supply.new)) }
    ensures home { P.home supply.new ≡ P.home supply.old }
{
    record_laws::<R>();
    let mut job = lift_block(rt, array, idle);
    run_job(rt, &mut job);
    land_block(job, array, idle, supply)
}

// Lifts the next block of a run into a job that reads it into the first idle buffer, and tells the device of
// those behind it.
pub(crate) fn lift_block<H: Host, S: Slot, R: Record>(
    rt: &H,
    array: &mut ExternalArray<S, R>,
    idle: &mut BufList<R>,
) -> Job<Berth<S, R>, R>
    requires stored { 0 < length array.old.stored }
    requires idle { 0 < length idle.old }
    ensures lifted { BlockLifted R.record_of R.WIDTH S.shown array.old array.new idle.old idle.new result }
{
    let (slot, count) = array.lift();
    let _by_itself = array.announce(rt);
    let buf = idle.pop_front().unwrap();
    Job {
        slot,
        buf,
        kind: JobKind::Read { count },
        done: None,
    }
}

// Takes a block that was lifted and read: it is loaded, and its slot goes to the supply. Where the read
// failed, the buffer is idle again, and it gives the slot's number.
pub(crate) fn land_block<S: Slot, R: Record, P: Supply<S, R>>(
    job: Job<Berth<S, R>, R>,
    array: &mut ExternalArray<S, R>,
    idle: &mut BufList<R>,
    supply: &mut P,
) -> Option<u32>
    requires may { MayLand R.record_of R.WIDTH S.shown job array.old (P.stock supply.old) }
    requires few_idle { length idle.old < 2 ^ 32 - 1 }
    ensures landed { IfNone result (BlockLanded R.record_of R.WIDTH S.shown job array.old array.new (P.stock supply.old) (P.stock supply.new) × (idle.new ≡ idle.old)) }
    ensures failed { IfSome result (λ number. BlockFailed S.shown number job (P.stock supply.old) (P.stock supply.new) × ((array.new ≡ array.old) × (idle.new ≡ idle.old ++ job.buf ∷ []))) }
    ensures home { P.home supply.new ≡ P.home supply.old }
{
    let Job {
        slot,
        buf,
        kind: _,
        done,
    } = job;
    let number = slot.number();
    free_slot(supply, slot);
    let Some(answer) = done else { unreachable!() };
    match answer {
        Ok(()) => {
            array.accept_block(buf);
            None
        }
        Err(_) => {
            idle.push_back(buf);
            Some(number)
        }
    }
}
