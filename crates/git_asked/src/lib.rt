//! What the checker asks of a listing, reason by reason and line by line; that all of it holds exactly of the
//! listing that an input defines; and which of two findings is given.
#![tactic(auto)]

mod finding;
pub mod laws;

pub use finding::{Finding, Reason, earlier};

#[cfg(test)]
mod tests;
