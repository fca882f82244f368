//! Vectors of one to six integers, exact in 128 bits. Stands on the definitions of vectors; every layer
//! that computes with vectors stands on it.
#![tactic(auto)]

mod arithmetic;
mod content;
mod vector;

pub use arithmetic::{product, sum};
pub use vector::IVec;

#[cfg(test)]
mod tests;
