//! The text that `locate` reads: an input, and weights directly after it. What it says is one, and bytes that are no
//! such text have one answer, the first fault with its line in the whole text.
#![tactic(auto)]

pub mod laws;
mod reading;
mod refusal;
mod text;

pub use reading::{WeightedReading, read, read_weighted};
pub use refusal::weights_refusal;
pub use text::Weighted;
