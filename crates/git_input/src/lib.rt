//! The value of an input. Stands on gradings and polynomials; what reads, prints or judges inputs stands
//! on it.
#![tactic(auto)]

mod input;

pub use input::Input;

#[cfg(test)]
mod tests;
