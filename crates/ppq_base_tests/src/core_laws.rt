//! One buffer, two slots and two passes, and what each of them may do.
ghost use Rattle.std.specs.Prelude.{◌≡◌, length};
ghost use Rattle.ppq_core.specs.Shown.{IsSameSize};

use crate::pairs::pair;
use ppq_core::{
    Event, Place, State, StepFault, buffer_laws, interleaving_laws, order_laws, slot_laws,
    step_laws,
};
use ppq_record::Pair;
use std::alloc::Global;
use std::process::Abort;

fn small(rt: &impl Abort, alloc: Global) -> State<Pair>
    ensures buffers { length result.buffers ≡ 1 }
    ensures slots { length result.slots ≡ 2 }
    ensures passes { length result.pushed ≡ 2 }
{
    State::new(alloc, 1, 2, 2).expect(rt, "memory")
}

// Takes these steps in turn. Each is legal or not.
pub(crate) fn take(rt: &impl Abort, state: &mut State<Pair>, steps: &[(Event<Pair>, bool)])
    ensures { IsSameSize state.old state.new }
{
    'steps: for (event, is_legal) in steps {
        let want = if *is_legal {
            Ok(())
        } else {
            Err(StepFault::Illegal)
        };
        assert!(rt; state.step(event) == want);
    }
}

// Whether the buffer is at this place.
fn buffer_is(state: &State<Pair>, place: Place) -> bool
    requires { length state.now.buffers ≡ 1 }
{
    state.buffer(0) == place
}

// Whether the slots are at these places.
fn slots_are(state: &State<Pair>, first: Place, second: Place) -> bool
    requires { length state.now.slots ≡ 2 }
{
    (state.slot(0) == first) & (state.slot(1) == second)
}

// Whether the passes pushed these records.
fn pushed_are(state: &State<Pair>, first: &[Pair], second: &[Pair]) -> bool
    requires { length state.now.pushed ≡ 2 }
{
    (state.pushed(0) == first) & (state.pushed(1) == second)
}

#[test]
fn a_new_state_is_free_and_nothing_is_pushed(rt: HostRuntime) {
    let state = small(&rt, rt.alloc());
    assert!(rt; buffer_is(&state, Place::Free) & slots_are(&state, Place::Free, Place::Free));
    assert!(rt; pushed_are(&state, &[], &[]));
}

#[test]
fn slots_are_drawn_in_order(rt: HostRuntime) {
    let mut state = small(&rt, rt.alloc());
    let steps = [
        (Event::Draw { pass: 0, slot: 1 }, false),
        (Event::Draw { pass: 1, slot: 0 }, true),
        (Event::Give { pass: 0, buffer: 0 }, false),
        (Event::Draw { pass: 0, slot: 0 }, false),
        (Event::Draw { pass: 0, slot: 1 }, true),
        (Event::Draw { pass: 0, slot: 2 }, false),
    ];
    take(&rt, &mut state, &steps);
    assert!(rt; slots_are(&state, Place::Held { pass: 1 }, Place::Held { pass: 0 }));
}

#[test]
fn a_buffer_is_given_by_who_took_it(rt: HostRuntime) {
    buffer_laws::<Pair>();
    let mut state = small(&rt, rt.alloc());
    let steps = [
        (Event::Take { pass: 1, buffer: 0 }, true),
        (Event::Take { pass: 0, buffer: 0 }, false),
        (Event::Give { pass: 0, buffer: 0 }, false),
    ];
    take(&rt, &mut state, &steps);
    assert!(rt; buffer_is(&state, Place::Held { pass: 1 }));
    take(
        &rt,
        &mut state,
        &[(Event::Give { pass: 1, buffer: 0 }, true)],
    );
    assert!(rt; buffer_is(&state, Place::Free));
    take(
        &rt,
        &mut state,
        &[(Event::Take { pass: 0, buffer: 0 }, true)],
    );
    assert!(rt; buffer_is(&state, Place::Held { pass: 0 }));
}

#[test]
fn a_slot_is_stored_once_by_who_drew_it(rt: HostRuntime) {
    slot_laws::<Pair>();
    let mut state = small(&rt, rt.alloc());
    let steps = [
        (Event::Store { pass: 1, slot: 0 }, false),
        (Event::Draw { pass: 1, slot: 0 }, true),
        (Event::Store { pass: 0, slot: 0 }, false),
        (Event::Store { pass: 1, slot: 0 }, true),
        (Event::Store { pass: 1, slot: 0 }, false),
    ];
    take(&rt, &mut state, &steps);
    assert!(rt; slots_are(&state, Place::Stored { pass: 1 }, Place::Free));
}

// The legal step in which a pass pushes the pair with this key.
fn push(pass: u32, key: u64) -> (Event<Pair>, bool) {
    let item = pair(key);
    (Event::Push { pass, item }, true)
}

#[test]
fn a_push_is_read_back_by_its_own_pass(rt: HostRuntime) {
    step_laws::<Pair>();
    let mut state = small(&rt, rt.alloc());
    take(&rt, &mut state, &[push(1, 7), push(0, 9), push(1, 3)]);
    assert!(rt; pushed_are(&state, &[pair(9)], &[pair(7), pair(3)]));
}

#[test]
fn numbers_out_of_range_are_illegal(rt: HostRuntime) {
    let mut state = small(&rt, rt.alloc());
    let item = pair(1);
    let steps = [
        (Event::Take { pass: 2, buffer: 0 }, false),
        (Event::Give { pass: 2, buffer: 0 }, false),
        (Event::Draw { pass: 2, slot: 0 }, false),
        (Event::Push { pass: 2, item }, false),
        (Event::Store { pass: 2, slot: 0 }, false),
        (Event::Take { pass: 0, buffer: 1 }, false),
        (Event::Give { pass: 0, buffer: 1 }, false),
        (Event::Store { pass: 0, slot: 2 }, false),
    ];
    take(&rt, &mut state, &steps);
    assert!(rt; buffer_is(&state, Place::Free) & slots_are(&state, Place::Free, Place::Free));
    assert!(rt; pushed_are(&state, &[], &[]));
}

// Takes four steps, and expects where they lead, whatever their order.
fn end_so(rt: &impl Abort, alloc: Global, steps: &[(Event<Pair>, bool)]) {
    let mut state = small(rt, alloc);
    take(rt, &mut state, steps);
    let first = Place::Held { pass: 1 };
    assert!(rt; buffer_is(&state, Place::Held { pass: 0 }));
    assert!(rt; slots_are(&state, first, Place::Free) & pushed_are(&state, &[pair(5)], &[pair(6)]));
}

#[test]
fn steps_of_two_passes_end_in_the_same_places_in_either_order(rt: HostRuntime) {
    order_laws::<Pair>();
    interleaving_laws::<Pair>();
    let taken: (Event<Pair>, bool) = (Event::Take { pass: 0, buffer: 0 }, true);
    let drawn: (Event<Pair>, bool) = (Event::Draw { pass: 1, slot: 0 }, true);
    end_so(&rt, rt.alloc(), &[taken, drawn, push(0, 5), push(1, 6)]);
    end_so(&rt, rt.alloc(), &[drawn, taken, push(1, 6), push(0, 5)]);
}
