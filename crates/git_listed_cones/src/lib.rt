//! The listing of an input beside the cones over which it is made: what a question about both begins with.
#![tactic(auto)]

mod listing;

pub use listing::list_with_cones;
