//! The text of weights that follows an input: its reader, exact against a grammar, which names the first fault with
//! its place.
#![tactic(auto)]

mod fault;
pub mod laws;
mod limits;
mod lines;
mod reading;

pub use fault::WeightsFault;
pub use limits::WEIGHTS;
pub use reading::read_weights;
