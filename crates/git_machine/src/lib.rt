//! The closure machine: signatures, graphs of them, and the states and events by which all signatures
//! that are reached from a first one get listed. Stands on the fault for want of memory alone; engines
//! that close a graph stand on it.
//!
//! A [`Sig`] is a set of small numbers. Contracts see it as the list of its words.
#![tactic(auto)]

mod comparing;
mod event;
pub mod laws;
mod lists;
mod place;
mod signature;
pub mod signature_laws;
mod state;
mod successors;

pub use event::{Event, StepFault};
pub use place::Place;
pub use signature::Sig;
pub use state::State;
pub use successors::{CloseFault, Closed, Expansion, Found, Successors};
