//! The causes for which a call of this crate can be refused.
use std::alloc::{AllocError, AllocFailed};

/// One read or one write didn't take place.
#[derive(Clone, Copy, Debug, PartialEq, Eq)]
pub struct Failed;

/// There wasn't enough memory: the fault of each call that can be refused for that alone.
#[derive(Clone, Copy, Debug, PartialEq, Eq)]
pub struct NoMemory;

impl From<AllocError> for NoMemory {
    fn from(_error: AllocError) -> Self {
        NoMemory
    }
}

impl<T: Drop> From<AllocFailed<T>> for NoMemory {
    fn from(_error: AllocFailed<T>) -> Self {
        NoMemory
    }
}

/// Why a source wasn't read to its end.
#[derive(Clone, Copy, Debug, PartialEq, Eq)]
pub enum ReadError {
    /// A read failed, and the source counted it.
    ReadFault,
    /// More bytes came than the limit.
    TooLong,
    /// There wasn't enough memory for the bytes.
    NoMemory,
}

/// A write failed, and the sink counted it, before all bytes were written.
#[derive(Clone, Copy, Debug, PartialEq, Eq)]
pub struct WriteFault;
