//! Degrees of monomials under a grading.

ghost use Rattle.std.specs.Prelude.{◌≡◌, ◌≤◌, All, IfSome, IsNone, ◌↔◌};
ghost use Rattle.git_defs.specs.Vectors.{zero_vector};
ghost use Rattle.git_poly.specs.Degrees.{degree_under, IsGradedBy, HasOneDegree, IsFirstApart};

use crate::term::Term;
use git_grading::Grading;
use git_ints::IVec;
use git_limits::ROWS;
use git_mono::Mono;

/// The degree of a monomial: the sum of the columns, each times the exponent of its variable. Each
/// exponent is at most 64, and 0 where the grading has no column for the variable, so that of y is 0.
pub fn degree_of(g: &Grading, m: &Mono) -> IVec
    requires { IsGradedBy g.now.columns m.now }
    ensures { result ≡ degree_under g.now.k g.now.columns m.now }
{
    let k = g.k();
    let r = g.r();
    let mut sum = zero(k);
    for i in 0..r {
        let column = g.column(i);
        let exponent = i128::from(m.exponent(i));
        sum = IVec::combine(1, &sum, exponent, &column);
    }
    sum
}

/// The vector 0.
fn zero(k: usize) -> IVec
    requires some { 1 ≤ k }
    requires few { k ≤ ROWS }
    ensures { result ≡ zero_vector k }
{
    let entries = [0i128; ROWS];
    IVec::of(&entries[..k])
}

/// The first monomial of a list whose degree is not that of another monomial.
pub fn first_apart(g: &Grading, from: &Mono, terms: &[Term]) -> Option<Mono>
    requires from { IsGradedBy g.now.columns from.now }
    requires terms { All (λ t. IsGradedBy g.now.columns t.mono) terms.now }
    ensures none { IsNone result ↔ HasOneDegree g.now.k g.now.columns from.now terms.now }
    ensures some { IfSome result (λ m. IsFirstApart g.now.k g.now.columns from.now terms.now m) }
{
    let degree = degree_of(g, from);
    for t in terms {
        let own = degree_of(g, &t.mono);
        if own != degree {
            return Some(t.mono);
        }
    }
    None
}
