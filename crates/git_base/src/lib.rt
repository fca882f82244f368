//! What every crate of the program stands on: the statuses with which a run ends, and the two ends
//! of a run, where bytes come from (`Source`) and where they go (`Sink`).
//!
//! Both ends count the reads and the writes that failed, so that a contract can say when a fault of
//! the outside may be answered.
#![tactic(auto)]

mod faults;
mod memory;
mod status;
mod std_ends;
mod streams;
#[cfg(test)]
mod tests;

pub use faults::{Failed, NoMemory, ReadError, WriteFault};
pub use memory::{CleanSource, MemSink, MemSource};
pub use status::Status;
pub use std_ends::{StdSink, StdSource};
pub use streams::{Sink, Source, read_all, write_all_of};
