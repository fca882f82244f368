//! Division of polynomials by lists of members, and S-polynomials.
//!
//! What a division is, and the laws of division, stand in `git_ideals`.
#![tactic(auto)]

mod dividend;
mod division;
mod pairs;

pub use division::{Division, divide, divides_to_zero};
pub use pairs::s_poly;
