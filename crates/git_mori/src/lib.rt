//! Moving chambers: those in the moving cone, which is the intersection of the cones of all columns but one,
//! and the parts into which they fall.
#![tactic(auto)]

pub mod laws;
mod moving;

pub use moving::{MoriFacet, MoriFault, Moving};
