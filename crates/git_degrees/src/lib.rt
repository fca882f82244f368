//! Degrees of monomials under a grading with torsion: rows with a modulus, when two monomials are of one degree, and when a
//! polynomial is homogeneous. Stands on gradings and polynomials.
#![tactic(auto)]

mod laws;
mod limits;
mod torsion;

pub use laws::{
    degrees_without_torsion, monomials_apart_are_found, none_apart_where_homogeneous,
    one_pair_apart,
};
pub use limits::{MODULUS, TORSION_ENTRY, TORSION_ROWS};
pub use torsion::Torsion;
