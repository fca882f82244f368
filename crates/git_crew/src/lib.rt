//! The closure of a graph of signatures by many workers. Stands on the frontier, which they share, and has
//! the promise of the closure on one thread; the listing of all chambers by a crew stands on it.
#![tactic(auto)]

mod close;
mod expand;
mod gate;
mod join;
mod member;

pub use close::close_over_with;
pub use gate::{Gate, OpenGate};

#[cfg(test)]
mod tests;
