//! What holds of the answer on a listing and certificates that somebody else made, and of the answer to bytes: there is
//! one. Each function is a law: its contract says it.
#![tactic(auto)]

mod laws;

pub use laws::{check_has_an_answer, check_has_one_answer, each_text_has_an_answer};
