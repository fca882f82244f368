//! S-polynomials of pairs.

ghost use Rattle.std.specs.Prelude.{◌≡◌, ◌≢◌, ◌↔◌, IfOk};
ghost use Rattle.git_algebra.specs.Operations.{zero_polynomial};
ghost use Rattle.git_ideals.specs.Division.{IsSPolynomial};
ghost use Rattle.git_reduce.specs.Steps.{IsMultipleAbove};

use git_mono::MONO_DEGREE;
use git_poly::{Poly, PolyFault};
use std::alloc::Global;

/// The S-polynomial of two polynomials other than 0: each is made to have the lead number 1 and
/// raised to the least common multiple of the leads, and the second is taken from the first.
/// `Degree` comes exactly where that multiple has a total degree above `MONO_DEGREE`.
pub fn s_poly(alloc: Global, f: &Poly, g: &Poly) -> Result<Poly, PolyFault>
    requires first { f.now ≢ zero_polynomial }
    requires second { g.now ≢ zero_polynomial }
    ensures s_polynomial { IfOk result (λ s. IsSPolynomial f.now g.now s) }
    ensures degree { (result ≡ Err PolyFault.Degree) ↔ IsMultipleAbove MONO_DEGREE f.now g.now }
{
    let top = f.lead().unwrap();
    let other = g.lead().unwrap();
    let Some(multiple) = top.0.lcm(&other.0) else {
        return Err(PolyFault::Degree);
    };
    let first = f.times_term(alloc, &multiple.quotient(&top.0), top.1.inverse().unwrap())?;
    let number = other.1.inverse().unwrap();
    first.sub_times(alloc, &multiple.quotient(&other.0), number, g)
}
