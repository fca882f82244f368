//! The geometry of cones of integer vectors, for every rank. Each function is a law about the
//! definitions of `git_defs`, with an empty body: its contract is the law, and the statement stands
//! in `specs/`. The lemmas behind the laws are in `proofs/`, for the crates above.
#![tactic(auto)]

pub mod double_description;
pub mod duality;
pub mod extreme_vectors;
pub mod full_rank;
pub mod germs;
pub mod instances;
pub mod membership;

ghost use Rattle.git_defs.specs.Vectors.{Vector};

use std::marker::Brand;

/// A set of vectors: a law with a parameter of this trait holds of every set.
pub trait VectorSet {
    ghost holds: { Vector → Type 0 };
}

// A call at `Brand` may pick the set.
impl VectorSet for Brand {
    ghost holds = { λ x. ⊥ };
}
