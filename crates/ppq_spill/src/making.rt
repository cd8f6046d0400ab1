//! Writing merged records as blocks of a new array.
ghost use Rattle.std.specs.Prelude.{◌≡◌, ◌+◌, ◌-◌, ◌*◌, ◌<◌, ◌++◌, ◌∷◌, [], length, All};
ghost use Rattle.ppq_fetch.specs.ppq_array.Supply.{IsSlot};
ghost use Rattle.ppq_fetch.specs.ppq_array.Owner.{HasSlot, slots_shown};
ghost use Rattle.ppq_fetch.specs.ppq_array.Kept.{SameSums};
ghost use Rattle.ppq_spill.specs.Writing.{SameBuffers};
ghost use Rattle.ppq_spill.specs.Making.{hand_of, MayWrite, MayWritePart, BatchEnds, SameRest};

use crate::buffers::put_records;
use crate::new_array::NewArray;
use crate::writing::write_block;
use ppq_fetch::{
    Berth, BerthList, BufList, Host, Record, Slot, StoreFault, Supply, free_slot, record_laws,
};

// Writes records as the next blocks of an array, each full but the last: to slots in hand, and then to
// slots that the supply keeps. It costs a block write for each block.
pub(crate) fn write_batch<H: Host, S: Slot, R: Record, P: Supply<S, R>>(
    rt: &H,
    supply: &mut P,
    idle: &mut BufList<R>,
    making: &mut NewArray<S, R>,
    records: &[R],
) -> Result<(), StoreFault>
    requires may { MayWrite S.shown R.WIDTH (length records.now) idle.old (hand_of making.old (P.stock supply.old)) }
    ensures idle { SameBuffers (P.stock supply.old).block idle.old idle.new }
    ensures outcome { BatchEnds R.record_of R.WIDTH S.shown records.now records.now (hand_of making.old (P.stock supply.old)) (hand_of making.new (P.stock supply.new)) result }
    ensures home { P.home supply.new ≡ P.home supply.old }
{
    let block = idle.at(0).block();
    let mut at = 0;
    while at < records.len() {
        let end = records.len().min(at + block as usize);
        match write_part(rt, supply, idle, making, &records[at..end]) {
            Ok(()) => at = end,
            Err(fault) => return Err(fault),
        }
    }
    Ok(())
}

// Writes at most a block of records as the next block of an array.
fn write_part<H: Host, S: Slot, R: Record, P: Supply<S, R>>(
    rt: &H,
    supply: &mut P,
    idle: &mut BufList<R>,
    making: &mut NewArray<S, R>,
    records: &[R],
) -> Result<(), StoreFault>
    requires may { MayWritePart S.shown R.WIDTH (length records.now) idle.old (hand_of making.old (P.stock supply.old)) }
    ensures idle { SameBuffers (P.stock supply.old).block idle.old idle.new }
    ensures outcome { BatchEnds R.record_of R.WIDTH S.shown records.now [] (hand_of making.old (P.stock supply.old)) (hand_of making.new (P.stock supply.new)) result }
    ensures home { P.home supply.new ≡ P.home supply.old }
{
    record_laws::<R>();
    let berth = next_slot(supply, &mut making.berths);
    let mut buf = idle.pop_front().unwrap();
    buf.clear();
    put_records(&mut buf, records);
    let (buf, failed) = write_block(rt, &mut making.made, berth, buf);
    idle.push_back(buf);
    match failed {
        None => Ok(()),
        Some(berth) => {
            let number = berth.number();
            free_slot(supply, berth);
            Err(StoreFault::Device { number })
        }
    }
}

// The next of the slots in hand, or where there is none, of those that the supply keeps. There is one.
pub(crate) fn next_slot<S: Slot, R: Record, P: Supply<S, R>>(
    supply: &mut P,
    berths: &mut BerthList<S, R>,
) -> Berth<S, R>
    requires some { 0 < length berths.old + length (P.stock supply.old).kept }
    requires sizes { All (HasSlot S.shown ((P.stock supply.old).block * R.WIDTH)) berths.old }
    ensures moved { SameSums (slots_shown S.shown berths.old ++ (P.stock supply.old).kept) (S.shown result.slot ∷ (slots_shown S.shown berths.new ++ (P.stock supply.new).kept)) }
    ensures room { (P.stock supply.new).slot_room + length berths.old ≡ (P.stock supply.old).slot_room + 1 + length berths.new }
    ensures left { length berths.new ≡ length berths.old - 1 }
    ensures rest { SameRest (P.stock supply.old) (P.stock supply.new) }
    ensures slot { IsSlot ((P.stock supply.old).block * R.WIDTH) (S.shown result.slot) }
    ensures sizes { All (HasSlot S.shown ((P.stock supply.old).block * R.WIDTH)) berths.new }
    ensures home { P.home supply.new ≡ P.home supply.old }
{
    match berths.pop_front() {
        Some(berth) => berth,
        None => match supply.draw_slot() {
            Some(berth) => berth,
            None => unreachable!(),
        },
    }
}
