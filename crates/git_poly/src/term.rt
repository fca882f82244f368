//! One term of a polynomial.

use git_field::Fp;
use git_mono::Mono;

/// A monomial with its number.
#[derive(Clone, Copy, Debug)]
pub struct Term {
    pub mono: Mono,
    pub number: Fp,
}
