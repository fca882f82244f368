//! Inputs that are made from numbers: points of a plane, and Pluecker relations.
#![tactic(auto)]

mod draws;
mod laws;
mod planes;
mod tables;

pub use draws::points;
pub use laws::{one_input, samples_are_inputs, some_input};
pub use planes::plucker;

#[cfg(test)]
mod tests;
