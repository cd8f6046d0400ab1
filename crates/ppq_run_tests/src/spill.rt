//! Worked examples of storing runs. A number stands for the pair with that key and value 0.
ghost use Rattle.std.specs.Prelude.{◌≡◌, ◌-◌, ◌^◌, ◌<◌, ◌≤◌, true, length};
ghost use Rattle.ppq_spill.specs.Body.{IsNewBody};
ghost use Rattle.ppq_record.specs.Order.{Ascends};
ghost use Rattle.ppq_record.specs.Pair.{pair_cmp};
ghost use Rattle.ppq_run_tests.specs.Wide.{IsWideBody};

use crate::quiet_slot::{QuietSlot, quiet_berth};
use ppq_array::{
    Berth, ExternalArray, OwnerLists, Runs, StoreFault, Supply, free_slot, give_buffer,
};
use ppq_block::BlockBuf;
use ppq_lane::Lanes;
use ppq_merge::MinTree;
use ppq_outside::{Host, Slot};
use ppq_record::{Pair, is_least, record_laws};
use ppq_spill::{PassBody, store_sorted};
use ppq_testkit::pair;
use std::alloc::Global;
use std::process::Abort;

// What runs of two records are stored by.
type Body = PassBody<QuietSlot, Pair>;

// The slots and buffers of two records that are not in use.
type Owner = OwnerLists<QuietSlot, Pair>;

// A new body for runs of two records.
fn new_body(rt: &impl Abort, alloc: Global) -> Body
    ensures { IsNewBody 2 2 1 result }
{
    PassBody::new(alloc, 2, 2, 1).expect(rt, "memory")
}

// Stores a run of one record, 5, in a new body.
fn store_one<H: Host>(rt: &H, body: &mut Body, owner: &mut Owner) -> Result<(), StoreFault>
where
    H::Dir: Send,
    requires new { IsNewBody 2 2 1 body.old }
    requires block { owner.old.block ≡ 2 }
{
    store_sorted(rt, body, owner, &[pair(5)])
}

// Drops both, which in place would be proved anew in each test.
fn end(_body: Body, _owner: Owner) {}

// Whether an owner was asked in vain for so many buffers and so many slots.
fn lacked(owner: &Owner, buffers: u64, slots: u64) -> bool {
    (owner.scant() == buffers) & (owner.dry() == slots)
}

// Whether a body has so many runs in buffers and in blocks.
fn has_runs(body: &Body, internal: usize, external: usize) -> bool {
    (body.runs.internal.len() == internal) & (body.runs.external.len() == external)
}

// An owner with one slot and one buffer.
fn one_of_each(rt: &impl Abort, alloc: Global) -> Owner
    ensures { result.block ≡ 2 }
{
    let mut owner = OwnerLists::new(2, 1, 1);
    free_slot(&mut owner, quiet_berth(rt, alloc, 0, false));
    give_buffer(&mut owner, BlockBuf::new(alloc, 2).expect(rt, "memory"));
    owner
}

// Whether the first run in buffers begins with 5.
fn begins_with_five(body: &Body) -> bool {
    match body.runs.internal.first() {
        Some(run) => run.first() == Some(pair(5)),
        None => false,
    }
}

// Stores a run where there is a buffer.
fn stores_in_a_buffer<H: Host + Abort>(rt: &H, alloc: Global)
where
    H::Dir: Send,
{
    let mut owner = one_of_each(rt, alloc);
    let mut body = new_body(rt, alloc);
    let stored = store_one(rt, &mut body, &mut owner) == Ok(());
    let run = has_runs(&body, 1, 0) & begins_with_five(&body);
    assert!(rt; stored & run & (owner.scant() == 0) & (owner.free_slots() == 1));
    end(body, owner);
}

#[test]
fn a_run_goes_into_buffers_where_there_are_enough(rt: HostRuntime) {
    stores_in_a_buffer(&rt, rt.alloc());
}

// An owner with two slots, 7 and 8, and no buffer.
fn two_slots(rt: &impl Abort, alloc: Global) -> Owner
    ensures { result.block ≡ 2 }
{
    let mut owner = OwnerLists::new(2, 2, 0);
    free_slot(&mut owner, quiet_berth(rt, alloc, 7, false));
    free_slot(&mut owner, quiet_berth(rt, alloc, 8, false));
    owner
}

// Whether a slot is 7, written once, and a read of it gives 5 and zeros.
fn holds_five<H: Host>(rt: &H, berth: Berth<QuietSlot, Pair>) -> bool {
    let mut slot = berth.into_slot();
    let is_written = (slot.number() == 7) & (slot.writes() == 1);
    let mut bytes = [1; 32];
    let is_read = slot.read(rt, &mut bytes) == Ok(());
    is_written & is_read & (bytes[7] == 5) & (bytes[8] == 0) & (bytes[23] == 0)
}

// Whether the last block of a run has the one record 5, in slot 7. It is given up.
fn gives_up_five<H: Host>(rt: &H, run: &mut ExternalArray<QuietSlot, Pair>) -> bool {
    match run.give_up() {
        Some(berth) => holds_five(rt, berth),
        None => false,
    }
}

// Whether a run has one record, 5, which is not loaded.
fn is_five_stored(run: &ExternalArray<QuietSlot, Pair>) -> bool {
    let sizes = (run.level() == 0) & (run.len() == 1) & (run.loaded() == 0);
    sizes & (run.next_to_lift() == Some(pair(5)))
}

// Whether the first run in blocks has the one record 5 in one block, in slot 7. It is given up.
fn has_five<H: Host>(rt: &H, body: &mut Body) -> bool {
    match body.runs.external.first_mut() {
        Some(run) => is_five_stored(run) & gives_up_five(rt, run),
        None => false,
    }
}

// Stores a run where there is no buffer.
fn stores_in_a_block<H: Host + Abort>(rt: &H, alloc: Global)
where
    H::Dir: Send,
{
    let mut owner = two_slots(rt, alloc);
    let mut body = new_body(rt, alloc);
    let stored = store_one(rt, &mut body, &mut owner) == Ok(());
    let run = has_runs(&body, 0, 1) & has_five(rt, &mut body);
    assert!(rt; stored & run & lacked(&owner, 1, 0) & (owner.free_slots() == 1));
    end(body, owner);
}

#[test]
fn a_run_that_finds_no_buffer_goes_to_a_block(rt: HostRuntime) {
    stores_in_a_block(&rt, rt.alloc());
}

// Stores a run where there is neither a buffer nor a slot.
fn stores_nothing<H: Host + Abort>(rt: &H, alloc: Global)
where
    H::Dir: Send,
{
    let mut owner = Owner::new(2, 0, 0);
    let mut body = new_body(rt, alloc);
    let refused = store_one(rt, &mut body, &mut owner) == Err(StoreFault::NoFreeBlock);
    assert!(rt; refused & has_runs(&body, 0, 0) & lacked(&owner, 1, 1));
    end(body, owner);
}

#[test]
fn a_full_device_changes_nothing(rt: HostRuntime) {
    stores_nothing(&rt, rt.alloc());
}

// An owner with slot 3, which fails each call.
fn broken_slot(rt: &impl Abort, alloc: Global) -> Owner
    ensures { result.block ≡ 2 }
{
    let mut owner = OwnerLists::new(2, 1, 0);
    free_slot(&mut owner, quiet_berth(rt, alloc, 3, true));
    owner
}

// Whether an owner has slot 3, one call of which failed.
fn has_broken_slot(owner: &mut Owner) -> bool {
    match owner.draw_slot() {
        Some(slot) => (slot.number() == 3) & (slot.faults() == 1),
        None => false,
    }
}

// Stores a run where the one slot fails.
fn stores_in_a_broken_slot<H: Host + Abort>(rt: &H, alloc: Global)
where
    H::Dir: Send,
{
    let mut owner = broken_slot(rt, alloc);
    let mut body = new_body(rt, alloc);
    let failed = store_one(rt, &mut body, &mut owner) == Err(StoreFault::Device { number: 3 });
    assert!(rt; failed & has_broken_slot(&mut owner));
    end(body, owner);
}

#[test]
fn a_failed_write_names_its_slot_and_keeps_it(rt: HostRuntime) {
    stores_in_a_broken_slot(&rt, rt.alloc());
}

// A body with no runs, for one run in blocks, with so many buffers of two records each and so many jobs.
fn wide_body(rt: &impl Abort, alloc: Global, buffers: u32, jobs: u32) -> Body
    requires few { buffers < 2 ^ 32 - 1 }
    requires some { 2 ≤ buffers }
    ensures { IsWideBody result }
{
    let runs = Runs::new(alloc, 2, 1).expect(rt, "memory");
    let lanes = Lanes::new(alloc, buffers, jobs, 2, 0).expect(rt, "memory");
    let tree = MinTree::new(alloc, 3).expect(rt, "memory");
    PassBody { runs, lanes, tree }
}

// Twenty slots, of which two fail each call.
fn twenty_slots(rt: &impl Abort, alloc: Global, first: u32, second: u32) -> Owner
    ensures { result.block ≡ 2 }
{
    let mut owner = OwnerLists::new(2, 20, 0);
    for number in 0..20 {
        let broken = (number == first) | (number == second);
        free_slot(&mut owner, quiet_berth(rt, alloc, number, broken));
    }
    owner
}

// Whether pairs are in order.
fn ascends(all: &[Pair]) -> bool
    ensures { result ≡ true → Ascends pair_cmp all.now }
{
    record_laws::<Pair>();
    is_least(all, all.len() as u64, all)
}

// Stores an ascending list in a body with wide lanes.
fn store_wide<H: Host>(
    rt: &H,
    body: &mut Body,
    owner: &mut Owner,
    sorted: &[Pair],
) -> Result<(), StoreFault>
where
    H::Dir: Send,
    requires wide { IsWideBody body.old }
    requires block { owner.old.block ≡ 2 }
    requires ascend { Ascends pair_cmp sorted.now }
    requires some { 0 < length sorted.now }
    requires few { length sorted.now < 2 ^ 32 - 1 }
{
    store_sorted(rt, body, owner, sorted)
}

// Stores the pairs 0 to 39, which take 20 blocks.
fn store_forty<H: Host + Abort>(
    rt: &H,
    alloc: Global,
    body: &mut Body,
    owner: &mut Owner,
) -> Result<(), StoreFault>
where
    H::Dir: Send,
    requires wide { IsWideBody body.old }
    requires block { owner.old.block ≡ 2 }
{
    let mut all = Vec::new(alloc);
    for key in 0..40 {
        all.push(pair(key)).expect(rt, "memory");
    }
    assert!(rt; ascends(&all));
    assert!(rt; all.len() == 40);
    store_wide(rt, body, owner, &all)
}

// Whether a slot has this number, and a read of it gives the two pairs of that place.
fn holds_two_of<H: Host>(rt: &H, berth: Berth<QuietSlot, Pair>, place: u32) -> bool
    requires { place < 20 }
{
    let mut slot = berth.into_slot();
    let mut bytes = [0; 32];
    let is_read = slot.read(rt, &mut bytes).is_ok();
    let first = u32::from(bytes[7]) == 2 * place;
    is_read & (slot.number() == place) & first & (u32::from(bytes[23]) == 2 * place + 1)
}

// Whether the last block of a run is that of this place. It is given up.
fn gives_up_block<H: Host>(rt: &H, run: &mut ExternalArray<QuietSlot, Pair>, place: u32) -> bool
    requires { place < 20 }
{
    match run.give_up() {
        Some(berth) => holds_two_of(rt, berth, place),
        None => false,
    }
}

// Whether a run has 40 records in twenty blocks, which it gives up.
fn gives_up_forty<H: Host>(rt: &H, run: &mut ExternalArray<QuietSlot, Pair>) -> bool {
    let mut right = run.len() == 40;
    for back in 0u32..20 {
        right &= gives_up_block(rt, run, 19 - back);
    }
    right
}

// Whether the last run of a body has the pairs 0 to 39 in twenty blocks, each in the slot of its number.
fn has_forty<H: Host>(rt: &H, body: &mut Body) -> bool {
    match body.runs.external.last_mut() {
        Some(run) => gives_up_forty(rt, run),
        None => false,
    }
}

// The number of a slot that an owner has, drawn, below 20; 20 if it has none.
fn drawn(owner: &mut Owner) -> u32
    ensures { result ≤ 20 }
{
    match owner.draw_slot() {
        Some(berth) => berth.number().min(20),
        None => 20,
    }
}

// Whether an owner has just the slots 5 to 19, each once.
fn has_fifteen(owner: &mut Owner) -> bool {
    let mut seen = 0u32;
    for _slot in 0..15 {
        seen |= 1 << drawn(owner);
    }
    // fifteen draws, and the bits 5 to 19
    (seen == 0xf_ffe0) & (owner.free_slots() == 0)
}

// How many records the last run of a body has.
fn records_in_blocks(body: &Body) -> u64 {
    match body.runs.external.last() {
        Some(run) => run.len(),
        None => 0,
    }
}

// Stores them with so many buffers and room for so many jobs, and expects the same run.
fn expect_forty<H: Host + Abort>(rt: &H, alloc: Global, buffers: u32, jobs: u32)
where
    H::Dir: Send,
    requires few { buffers < 2 ^ 32 - 1 }
    requires some { 2 ≤ buffers }
{
    let mut owner = twenty_slots(rt, alloc, 20, 20);
    let mut body = wide_body(rt, alloc, buffers, jobs);
    let stored = store_forty(rt, alloc, &mut body, &mut owner);
    let kept = (body.lanes.idle.len() == buffers) & (owner.free_slots() == 0);
    assert!(rt; (stored == Ok(())) & kept & has_forty(rt, &mut body));
    end(body, owner);
}

// Stores them in groups of eight blocks, in two groups of ten, and in none.
fn expect_forty_thrice<H: Host + Abort>(rt: &H, alloc: Global)
where
    H::Dir: Send,
{
    expect_forty(rt, alloc, 16, 8);
    expect_forty(rt, alloc, 40, 64);
    expect_forty(rt, alloc, 2, 1);
}

#[test]
fn a_run_is_the_same_in_groups_and_without(rt: HostRuntime) {
    expect_forty_thrice(&rt, rt.alloc());
}

// Stores them where the slots 5 and 7 fail, and expects the first of them to be named.
fn expect_first_fault<H: Host + Abort>(rt: &H, alloc: Global)
where
    H::Dir: Send,
{
    let mut owner = twenty_slots(rt, alloc, 7, 5);
    let mut body = wide_body(rt, alloc, 16, 8);
    let stored = store_forty(rt, alloc, &mut body, &mut owner);
    let named = stored == Err(StoreFault::Device { number: 5 });
    let buffers = body.lanes.idle.len() == 16;
    // the five blocks in front of it are stored, and all other slots came back
    assert!(rt; named & buffers & (records_in_blocks(&body) == 10) & has_fifteen(&mut owner));
    end(body, owner);
}

#[test]
fn of_several_failed_blocks_the_first_of_the_run_is_named(rt: HostRuntime) {
    expect_first_fault(&rt, rt.alloc());
}
