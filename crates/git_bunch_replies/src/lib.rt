//! What is answered by bunches: of a listing over the cones of full a-faces, of the listing of an input, and of an input.
#![tactic(auto)]

mod input;
pub mod laws;
mod reply;

pub use input::{bunch_answer, chambers_reply};
pub use reply::bunch_reply;
