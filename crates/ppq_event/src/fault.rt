//! Why a simulation stopped.
use ppq_queue::QueueFault;

/// Why a simulation stopped before its end.
#[derive(Clone, Copy, Debug, PartialEq, Eq)]
pub enum SimFault {
    /// The sink failed.
    Write,
    /// The queue refused a call: no block was free, or one failed.
    Queue(QueueFault),
}
