//! Buffers that are taken from a supply, filled, or given back.
ghost use Rattle.std.specs.Prelude.{◌≡◌, ◌+◌, ◌-◌, ◌*◌, ◌<◌, ◌≤◌, ◌^◌, ◌∷◌, ◌++◌, [], length, All, IfSome, IfNone};
ghost use Rattle.ppq_fetch.specs.ppq_block.Block.{holding};
ghost use Rattle.ppq_fetch.specs.ppq_array.Owner.{HasBlock};
ghost use Rattle.ppq_fetch.specs.ppq_array.Run.{items_of};
ghost use Rattle.ppq_fetch.specs.Fetching.{IsFitting};
ghost use Rattle.ppq_spill.specs.Moves.{TookBuffers, MayFill, IsFilled, FilledRun, FoundFewBuffers, FoundScant, with_buffers};

use ppq_fetch::{BlockBuf, BufList, InternalArray, Record, Slot, Supply, give_buffer};

// Writes records into buffers of the supply, as a run. None comes where it has too few, and they are all
// given back.
pub(crate) fn store_in_buffers<S: Slot, R: Record, P: Supply<S, R>>(
    supply: &mut P,
    sorted: &[R],
    block: u32,
) -> Option<InternalArray<R>>
    requires block { block ≡ (P.stock supply.old).block }
    requires size { 1 ≤ block }
    requires small { block ≤ 65536 }
    requires few { length sorted.now < 2 ^ 32 - 1 }
    ensures stored { IfSome result (FilledRun sorted.now (P.stock supply.old) (P.stock supply.new)) }
    ensures scant { IfNone result (FoundScant (length sorted.now) (P.stock supply.old) (P.stock supply.new)) }
    ensures home { P.home supply.new ≡ P.home supply.old }
{
    let need = blocks_for(sorted.len() as u32, block);
    match take_buffers(supply, need) {
        Some(taken) => Some(fill(taken, sorted, block)),
        None => None,
    }
}

// How many blocks have room for so many records.
pub(crate) fn blocks_for(records: u32, block: u32) -> u32
    requires size { 1 ≤ block }
    requires small { block ≤ 65536 }
    ensures enough { records ≤ result * block }
    ensures least { result * block < records + block }
    ensures few { result ≤ records }
{
    let whole = records / block;
    if whole * block < records {
        whole + 1
    } else {
        whole
    }
}

// Takes so many buffers, and empties them. None comes where fewer are had, and they are given back.
fn take_buffers<S: Slot, R: Record, P: Supply<S, R>>(
    supply: &mut P,
    need: u32,
) -> Option<BufList<R>>
    requires { need < 2 ^ 32 - 1 }
    ensures all { IfSome result (λ taken. length taken ≡ need) }
    ensures taken { IfSome result (TookBuffers (P.stock supply.old) (P.stock supply.new)) }
    ensures few { IfNone result (FoundFewBuffers need (P.stock supply.old) (P.stock supply.new)) }
    ensures home { P.home supply.new ≡ P.home supply.old }
{
    let mut taken = BufList::empty();
    while taken.len() < need {
        match supply.take_buffer() {
            Some(mut buf) => {
                buf.clear();
                taken.push_back(buf);
            }
            None => {
                give_buffers(supply, taken);
                return None;
            }
        }
    }
    Some(taken)
}

// Gives buffers back.
pub(crate) fn give_buffers<S: Slot, R: Record, P: Supply<S, R>>(supply: &mut P, bufs: BufList<R>)
    requires room { length bufs ≤ (P.stock supply.old).buffer_room }
    requires block { All (HasBlock (P.stock supply.old).block) bufs }
    ensures stock { P.stock supply.new ≡ with_buffers (P.stock supply.old) (P.stock supply.new).sure_buffers ((P.stock supply.old).buffer_room - length bufs) }
    ensures sure { (P.stock supply.old).sure_buffers ≤ (P.stock supply.new).sure_buffers }
    ensures home { P.home supply.new ≡ P.home supply.old }
{
    let mut bufs = bufs;
    while let Some(buf) = bufs.pop_front() {
        give_buffer(supply, buf);
    }
}

// Writes records into empty buffers, in order, each full but the last: just as many buffers as it takes.
fn fill<R: Record>(bufs: BufList<R>, records: &[R], block: u32) -> InternalArray<R>
    requires may { MayFill block (length records.now) bufs }
    ensures filled { IsFilled block records.now (length bufs) result }
{
    let mut bufs = bufs;
    let mut run = InternalArray::empty();
    let mut at = 0;
    'filling: while let Some(mut buf) = bufs.pop_front() {
        let end = records.len().min(at + block as usize);
        put_records(&mut buf, &records[at..end]);
        run.add(buf);
        at = end;
    }
    run
}

// Writes records into an empty buffer.
pub(crate) fn put_records<R: Record>(buf: &mut BlockBuf<R>, records: &[R])
    requires empty { buf.old ≡ holding buf.old.block [] }
    requires room { length records.now ≤ buf.old.block }
    ensures { buf.new ≡ holding buf.old.block records.now }
{
    for record in records {
        buf.push(*record);
    }
}
