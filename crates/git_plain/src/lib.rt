//! The closure of a graph of signatures on one thread. Stands on the closure machine, whose definitions
//! of what is reached its contract cites; the listing of all chambers stands on it.
#![tactic(auto)]

mod close;
pub mod laws;
mod listing;

pub use close::close_over;

#[cfg(test)]
mod tests;
