//! What is told of each id before its expansion.

/// Is told of each id that a worker takes. It serves tests and traces: no answer depends on it.
pub trait Gate {
    /// Is called with each id in hand before its expansion. Workers are numbered from 0. The worker goes on
    /// once it has returned.
    fn enter(&self, worker: u64, id: u64);
}

/// Does nothing.
pub struct OpenGate;

impl Gate for OpenGate {
    fn enter(&self, _worker: u64, _id: u64) {}
}
