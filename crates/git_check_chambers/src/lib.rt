//! Judging the chambers of a listing that somebody else made: the first reason for which what is asked of it
//! does not hold, at its first line.
#![tactic(auto)]

mod chambers;
mod facets;
mod lines;
mod listing;
mod own;
mod walls;

pub use lines::found;
pub use listing::listing_finding;
