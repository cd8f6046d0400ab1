//! Items that are laid into a table.
use ppq_table::{Place, lay, unlay};

#[test]
fn laid_items_come_back_in_order(rt: HostRuntime) {
    let items = Vec::from_array(rt.alloc(), ['a', 'b', 'c']).expect(&rt, "memory");
    let places = match lay(rt.alloc(), items) {
        Ok(places) => places,
        Err(_) => panic!(rt; "memory"),
    };
    assert!(rt; unlay(places).as_slice() == ['a', 'b', 'c'].as_slice());
}
