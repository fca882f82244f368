//! All full faces of a grading, and the verdicts of faces from several threads.
#![tactic(auto)]

mod dealing;
mod fault;
mod full;
mod judging;
mod laws;

pub use fault::FacesFault;
pub use full::full_faces;
pub use git_facecert::FaceVerdict;
pub use judging::verdicts;
pub use laws::{ended_runs_certify, full_faces_are_one_list, runs_of_masks_are_decided};

#[cfg(test)]
mod tests;
