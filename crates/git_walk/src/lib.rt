//! Which chambers of a listing are reached from some of them by listed facets, whoever wrote the listing.
#![tactic(auto)]

mod walk;

pub use walk::reached;
