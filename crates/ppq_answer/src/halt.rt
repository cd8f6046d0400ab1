//! Why no further request was answered.
use ppq_engine::Stop;

// Why no further request was answered.
#[derive(Clone, Copy, Debug, PartialEq, Eq)]
pub enum Halt {
    // The source is at its end, between two requests.
    Over,
    // What comes next is no request. The first frame has number 1.
    Bad { number: u64 },
    // The source failed.
    Source,
    // The last request was not executed whole, or its answer was not put.
    Stopped { stop: Stop },
}
