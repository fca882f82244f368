//! Judging the certificates of faces that somebody else made: the first reason for which what is asked of them
//! does not hold, at its first line; and that all of it holds exactly of the verdicts of the full faces.
#![tactic(auto)]

mod faces;
pub mod laws;

pub use faces::faces_finding;
