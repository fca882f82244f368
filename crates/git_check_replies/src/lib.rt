//! What `check` answers to bytes: that they are no check text, with the line of their first fault, or whether the
//! listing and the certificates are those of the input, or the first reason for which they aren't, with its line.
#![tactic(auto)]

mod answering;
pub mod laws;
mod lines;

pub use answering::{check_answer, check_source};
pub use lines::{invalid_line, valid_line};

#[cfg(test)]
mod tests;
