//! What a bulk pop is to take.
use ppq_heap::Record;

// What a bulk pop is to take.
#[derive(Drop)]
pub struct Wanted<R: Record> {
    // Only records below this one, if there is one.
    pub limit: Option<R>,
    // At most so many records.
    pub most: u32,
}
