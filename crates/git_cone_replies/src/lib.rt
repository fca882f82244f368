//! What is answered of a listing by all its cones: the lines of the refusals, and the reply by cases in
//! order.
#![tactic(auto)]

mod laws;
mod lines;
mod reply;

pub use laws::{one_answer, some_answer};
pub use lines::{many_line, wide_pair_line};
pub use reply::cones_reply;
