//! Polynomials in T(1) to T(16) and the extra variable y, over the numbers modulo 32003.
//!
//! A [`Poly`] is seen by contracts as a polynomial of `git_algebra`: each of its monomials once, in
//! descending order, with its number, which is not 0.
#![tactic(auto)]

mod degrees;
mod fault;
mod poly;
mod term;
mod terms;

pub use degrees::degree_of;
pub use fault::PolyFault;
pub use poly::Poly;
