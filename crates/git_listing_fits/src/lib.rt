//! The sizes of true listings: they are within the limits of a listing's text.
#![tactic(auto)]

pub mod laws;
