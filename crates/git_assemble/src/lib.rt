//! The listing of chambers, made of what closes a graph of signatures.
#![tactic(auto)]

mod assembling;
mod chambers;
mod fault;
pub mod laws;
mod matching;
mod numbers;
mod sides;

pub use assembling::assemble;
pub use fault::AssembleFault;

#[cfg(test)]
mod tests;
