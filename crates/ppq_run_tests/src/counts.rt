//! The three numbers of a queue.
use ppq_counts::Counts;
use std::process::Abort;

#[test]
fn records_stores_and_sessions_are_counted_and_two_of_them_saturate(rt: HostRuntime) {
    let mut counts = Counts::none();
    counts.accept(3);
    counts.begin_store();
    counts.begin_session();
    counts.join(Counts::of_pass(4, 2));
    assert!(rt; (counts.accepted() == 7) & (counts.stores() == 3) & (counts.sessions() == 1));
    counts.accept(u64::MAX);
    counts.join(Counts::of_pass(0, u64::MAX - 4));
    assert!(rt; (counts.accepted() == u64::MAX) & (counts.stores() == u64::MAX - 1));
    counts.begin_store();
    counts.begin_store();
    assert!(rt; (counts.stores() == u64::MAX) & (counts.sessions() == 1));
}
