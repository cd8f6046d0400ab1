//! Why a sweep stopped.
use ppq_queue::QueueFault;

/// Why a sweep stopped before its end.
#[derive(Clone, Copy, Debug, PartialEq, Eq)]
pub enum SweepFault {
    /// The sink failed.
    Write,
    /// One of the queues refused a call: no block was free, or one failed.
    Queue(QueueFault),
}
