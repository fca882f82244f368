//! Monomials in T(1) to T(16) and the extra variable y, and the monomial orders.
//!
//! A [`Mono`] is seen by contracts as its list of seventeen exponents. No call takes memory.
#![tactic(auto)]

mod mono;
mod order;

pub use mono::{MONO_DEGREE, Mono};
pub use order::{DegRevLex, MonomialOrder};

#[cfg(test)]
mod tests;
