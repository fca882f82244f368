//! What is answered of weights beside a listing and its cones: the line of a wide weight, the reply by cases in order,
//! and the answer to an input with its weights.
#![tactic(auto)]

mod answer;
pub mod laws;
mod lines;
mod reply;

pub use answer::locate_answer;
pub use lines::wide_weight_line;
pub use reply::locate_reply;
