//! The items into their places, and back.
ghost use Rattle.std.specs.Prelude.{◌≡◌, ◌<◌, List, IfOk, IfErr, vec_len};
ghost use Rattle.ppq_table.specs.Places.{IsLaid};

use crate::Place;
use std::alloc::Global;

/// Each item into a place of its own, in order, and after them the emptied list.
///
/// It allocates the places. `Err` gives the items back as they were; it is returned only if an
/// allocation failed.
pub fn lay<T>(alloc: Global, mut items: Vec<T>) -> Result<Vec<Place<T>>, Vec<T>>
    requires { vec_len items < 4294967296 }
    ensures laid { IfOk result (λ places. IsLaid items.items places.items) }
    ensures unchanged { IfErr result (λ back. back.items ≡ items.items) }
{
    let Ok(mut places) = Vec::with_capacity(alloc, items.len() + 1) else {
        return Err(items);
    };
    items.reverse();
    while let Some(item) = items.pop() {
        places.push_reserved(Place::Item(item));
    }
    places.push_reserved(Place::Room(items));
    Ok(places)
}

/// The items as they were before they were laid into their places. It does not allocate.
pub fn unlay<T: Drop>(mut places: Vec<Place<T>>) -> Vec<T>
    requires { (items : List T) × IsLaid items places.items }
    ensures { (items : List T) → IsLaid items places.items → result.items ≡ items }
{
    let Some(Place::Room(mut room)) = places.pop() else {
        unreachable!()
    };
    while let Some(place) = places.pop() {
        let Place::Item(item) = place else {
            unreachable!()
        };
        room.push_reserved(item);
    }
    places.destroy_empty();
    room.reverse();
    room
}
