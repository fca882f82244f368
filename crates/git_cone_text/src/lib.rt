//! The text of all cones of a listing and of the verdict on them, and that there is one such text. Each
//! law is a function with an empty body; its statement stands in `specs/`.
#![tactic(auto)]

mod laws;
mod printing;

pub use laws::{
    all_faces_are_shown, all_faces_exist, text_is_one, verdict_is_decided, verdict_is_one,
    verdict_or_wide_pair, wide_pair_is_one,
};
pub use printing::print;
