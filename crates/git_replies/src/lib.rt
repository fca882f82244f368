//! What is replied: answers by cases, the lines of refusals and of counts, and what a source has left, as an
//! input or as the answer to bytes that are none.
#![tactic(auto)]

mod counts;
mod lines;
mod reading;
mod refusal;
mod reply;

pub use counts::counts_line;
pub use lines::{
    degree_line, full_line, push_at, steps_line, table_wide_line, wide_chamber_line, wide_face_line,
};
pub use reading::{Reading, input_refusal, read};
pub use reply::{Reply, Unanswered};
