//! What is called around the exploring of each task.

/// What is called around the exploring of each task, outside the lock of the board, with the number
/// of the task. No answer depends on it: a test uses it to see that tasks are explored at the same
/// time.
pub trait Gate {
    /// Before a worker explores the task.
    fn before(&self, number: u64);

    /// After it has explored the task.
    fn after(&self, number: u64);
}

/// The gate that does nothing.
#[derive(Clone, Copy, Debug, PartialEq, Eq)]
pub struct NoGate;

impl Gate for NoGate {
    fn before(&self, _number: u64) {}

    fn after(&self, _number: u64) {}
}
