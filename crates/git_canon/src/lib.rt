//! Canonical cones: the sorted extreme vectors and the sorted facet normals of a pointed cone of full
//! dimension, from generators or from inequalities.
#![tactic(auto)]

mod canon;
mod dropping;
mod sameness;

pub use canon::{Canon, CanonFault};
