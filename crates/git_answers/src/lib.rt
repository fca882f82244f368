//! What the commands answer: their cases in order, as relations over the bytes that are read, and that
//! each text has one answer.
#![tactic(auto)]

mod output;

pub use output::Output;
