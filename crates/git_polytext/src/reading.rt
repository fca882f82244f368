//! The line of a polynomial.
ghost use Rattle.std.specs.Prelude.{◌≡◌, ◌≤◌, IfOk, MatchResult};
ghost use Rattle.git_algebra.specs.Polynomials.{Polynomial};
ghost use Rattle.git_polytext.specs.Grammar.{IsPolynomialLine};
ghost use Rattle.git_polytext.specs.Reading.{GivesUnlessFull, polynomial_line};

use crate::fault::PolynomialFault;
use crate::terms::{pieces, sum_of_terms, terms};
use git_limits::COLUMNS;
use git_lines::Line;
use git_poly::Poly;
use std::alloc::Global;

#[tactic(auto, unfolding(crate::specs::Reading::polynomial_line, crate::specs::Reading::terms_line))]
fn read_line(alloc: Global, line: &Line<'_>, r: usize) -> Result<Poly, PolynomialFault>
    requires { r ≤ COLUMNS }
    ensures { GivesUnlessFull (λ p. p) result (polynomial_line r line.now.number line.now.text.now) }
{
    let mut parts = pieces(line.text);
    let terms = terms(alloc, r, line.number, &mut parts)?;
    let sum = sum_of_terms(alloc, &terms)?;
    Ok(sum)
}

/// The polynomial of a line, where there are the variables `T(1)` to `T(r)`, or the first fault with its place.
///
/// `r` is at most 16. A term's exponents are at most 64 each, and the terms at most two hundred.
pub fn read_polynomial(alloc: Global, line: &Line<'_>, r: usize) -> Result<Poly, PolynomialFault>
    requires { r ≤ COLUMNS }
    ensures found { IfOk result (λ p. IsPolynomialLine r line.now.text.now p) }
    ensures only { (p : Polynomial) → IsPolynomialLine r line.now.text.now p → MatchResult result (λ q. q ≡ p) (λ e. e ≡ PolynomialFault.NoMemory) }
    ensures exact { GivesUnlessFull (λ p. p) result (polynomial_line r line.now.number line.now.text.now) }
{
    read_line(alloc, line, r)
}
