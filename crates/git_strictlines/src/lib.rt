//! Texts in which a value has one spelling: their lines, what is read of them, and when what was printed is read back.
//!
//! A line has single spaces between its words and ends with its line feed. The readers of such texts stand on this crate.
#![tactic(auto)]

mod fault;
mod lines;

pub use fault::ReadFault;
pub use lines::{begins_with, end, header, number};

#[cfg(test)]
mod tests;
