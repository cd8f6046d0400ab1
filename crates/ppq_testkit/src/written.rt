//! How much a queue may write.

/// How many records there may be in the blocks that a queue writes: it has so many workers, so many records a block and
/// blocks a heap, so many records were pushed to it, and so many sessions were begun.
///
/// Eight times the records, and an extract buffer for each heap that they fill and each session; and two blocks for each
/// run, of which a heap that they fill makes two, and a session one for each worker and two more.
pub fn most_written(workers: u32, block: u32, heap: u32, pushed: u64, begun: u64) -> u64 {
    let (workers, block) = (u64::from(workers), u64::from(block));
    let heap_records = u64::from(heap).saturating_mul(block).max(1);
    let stores = pushed.div_ceil(heap_records);
    let emptied = stores
        .saturating_add(begun)
        .saturating_mul(workers)
        .saturating_mul(block);
    let runs = workers
        .saturating_add(2)
        .saturating_mul(begun)
        .saturating_add(stores.saturating_mul(2));
    pushed
        .saturating_add(emptied)
        .saturating_mul(8)
        .saturating_add(runs.saturating_mul(block).saturating_mul(2))
}
