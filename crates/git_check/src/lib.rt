//! Checking a listing and certificates that somebody else made against an input: valid exactly where the listing is
//! that of the input and the certificates are one accepted for each full face, else the first reason, at its first
//! line.
#![tactic(auto)]

mod checked;
mod judging;

pub use checked::{Checked, Section};
pub use git_asked::Reason;
pub use judging::check;
