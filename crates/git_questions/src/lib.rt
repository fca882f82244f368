//! What is answered to questions about the chambers of an input.
#![tactic(auto)]

mod cones;

pub use cones::cones_answer;
