//! The orbit cones of an input, from the verdicts of its faces.
#![tactic(auto)]

mod cones;

pub use cones::{free_masks, input_cones, whole_mask};
