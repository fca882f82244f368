//! Polynomials with what was taken away to make them.

ghost use Rattle.std.specs.Prelude.{◌≡◌, ◌≢◌, ◌<◌, ◌≤◌, ◌+◌, ◌∷◌, [], ℕ, Some, IfOk};
ghost use Rattle.git_algebra.specs.Exponents.{Exponents, degree, lcm, Divides};
ghost use Rattle.git_algebra.specs.Operations.{zero_polynomial, lead_of};
ghost use Rattle.git_basis.specs.Derived.{IsRaised, IsSDerived, IsCancelledBy};

use crate::element::{RUN_DEGREE, sub_times, times};
use git_base::NoMemory;
use git_field::Fp;
use git_mono::Mono;
use git_poly::Poly;
use std::alloc::{AllocError, AllocFailed, Global};

/// A term times a member, that was taken away.
#[derive(Clone, Copy)]
pub struct Part {
    pub factor: Mono,
    pub number: Fp,
    pub member: u32,
}

/// A polynomial with the parts that were taken away to make it, and a bound of the total degrees of
/// its cofactors.
#[derive(Drop)]
pub struct Derived {
    pub polynomial: Poly,
    pub parts: Vec<Part>,
    pub bound: u32,
}

/// Why a step isn't made.
#[derive(Drop)]
pub enum Hindrance {
    /// A product may pass the limit of degrees.
    Degrees,
    /// There wasn't enough memory.
    NoMemory,
}

impl From<NoMemory> for Hindrance {
    fn from(_e: NoMemory) -> Hindrance {
        Hindrance::NoMemory
    }
}

impl From<AllocError> for Hindrance {
    fn from(_e: AllocError) -> Hindrance {
        Hindrance::NoMemory
    }
}

impl<T: Drop> From<AllocFailed<T>> for Hindrance {
    fn from(_e: AllocFailed<T>) -> Hindrance {
        Hindrance::NoMemory
    }
}

/// The bound of a product with a monomial, where no product passes the limit.
fn raised(m: &Mono, d: &Derived) -> Result<u32, Hindrance>
    requires { d.now.bound ≤ RUN_DEGREE }
    ensures { IfOk result (λ bound. IsRaised m.now d.now bound) }
{
    let bound = m.degree() + d.bound;
    if bound > RUN_DEGREE || m.degree() + d.polynomial.total_degree() > RUN_DEGREE {
        return Err(Hindrance::Degrees);
    }
    Ok(bound)
}

/// The S-polynomial of two members.
pub fn s_derived(
    alloc: Global,
    a: &Derived,
    b: &Derived,
    i: u32,
    j: u32,
) -> Result<Derived, Hindrance>
    requires first { a.now.polynomial ≢ zero_polynomial }
    requires second { b.now.polynomial ≢ zero_polynomial }
    requires place { (t u : Exponents × ℕ) → lead_of a.now.polynomial ≡ Some t → lead_of b.now.polynomial ≡ Some u → degree (lcm t.0 u.0) ≤ 67108864 }
    requires first_low { a.now.bound ≤ RUN_DEGREE }
    requires second_low { b.now.bound ≤ RUN_DEGREE }
    ensures { IfOk result (λ d. IsSDerived a.now b.now i j d) }
{
    let top = a.polynomial.lead().unwrap();
    let other = b.polynomial.lead().unwrap();
    let place = top.0.lcm(&other.0).unwrap();
    let first = place.quotient(&top.0);
    let second = place.quotient(&other.0);
    let left = raised(&first, a)?;
    let right = raised(&second, b)?;
    let m = top.1.inverse().unwrap();
    let n = other.1.inverse().unwrap();
    let product = times(alloc, &a.polynomial, &first, m)?;
    let polynomial = sub_times(alloc, &product, &second, n, &b.polynomial)?;
    let negative = Fp::reduce(-1).mul(m);
    let first_part = Part {
        factor: first,
        number: negative,
        member: i,
    };
    let second_part = Part {
        factor: second,
        number: n,
        member: j,
    };
    let parts = two_parts(alloc, first_part, second_part)?;
    Ok(Derived {
        polynomial,
        parts,
        bound: left.max(right),
    })
}

fn two_parts(alloc: Global, first: Part, second: Part) -> Result<Vec<Part>, NoMemory>
    ensures { IfOk result (λ v. v.items ≡ first ∷ second ∷ []) }
{
    let mut parts = Vec::new(alloc);
    parts.push(first)?;
    parts.push(second)?;
    Ok(parts)
}

/// One less the multiple of a member that has its lead.
pub fn cancelled_by(alloc: Global, p: Derived, g: &Derived, l: u32) -> Result<Derived, Hindrance>
    requires first { p.polynomial ≢ zero_polynomial }
    requires second { g.now.polynomial ≢ zero_polynomial }
    requires divides { (t u : Exponents × ℕ) → lead_of p.polynomial ≡ Some t → lead_of g.now.polynomial ≡ Some u → Divides u.0 t.0 }
    requires low { g.now.bound ≤ RUN_DEGREE }
    ensures { IfOk result (λ d. IsCancelledBy p g.now l d) }
{
    let top = p.polynomial.lead().unwrap();
    let other = g.polynomial.lead().unwrap();
    let factor = top.0.quotient(&other.0);
    let bound = raised(&factor, g)?;
    let number = top.1.mul(other.1.inverse().unwrap());
    let polynomial = sub_times(alloc, &p.polynomial, &factor, number, &g.polynomial)?;
    let mut parts = p.parts;
    parts.push(Part {
        factor,
        number,
        member: l,
    })?;
    Ok(Derived {
        polynomial,
        parts,
        bound: p.bound.max(bound),
    })
}
