//! All cones of the fan of a listing: the faces of its chambers, and whether the chambers form a fan.
#![tactic(auto)]

mod cones;
mod faces;
mod laws;
mod meeting;
mod sets;
mod verdict;

pub use faces::{FaceOf, all_faces};
pub use laws::{list_of_faces_is_one, many_faces_pass_the_limit};
pub use sets::{AllFault, FACES};
pub use verdict::{FanVerdict, VerdictFault, fan_verdict};
