//! Division: as long as some member's lead divides the lead, the first such member takes it away.

ghost use Rattle.std.specs.Prelude.{◌≡◌, ◌+◌, ◌<◌, ◌≤◌, ◌↔◌, IfOk, IfSome, IfNone, IsTrue, Some, length, replicate};
ghost use Rattle.git_algebra.specs.Exponents.{degree};
ghost use Rattle.git_algebra.specs.Polynomials.{Polynomial};
ghost use Rattle.git_algebra.specs.Operations.{zero_polynomial, plus, minus, times_term, lead_of, total_degree};
ghost use Rattle.git_ideals.specs.Ideals.{combination};
ghost use Rattle.git_ideals.specs.Division.{member, IsRest, IsDivision, DividesToZero, TakesLead};
ghost use Rattle.git_reduce.specs.Steps.{NoneDivides, IsFirst, IsReached};

use crate::dividend::Dividend;
use git_base::NoMemory;
use git_field::Fp;
use git_mono::{MONO_DEGREE, Mono};
use git_poly::{Poly, PolyFault};
use std::alloc::Global;

/// The most terms that are merged rather than looked up.
const SHORT: usize = 32;

/// What a division gives: a quotient for each member, and the rest.
#[derive(Drop, Debug)]
pub struct Division {
    pub quotients: Vec<Poly>,
    pub rest: Poly,
}

/// A term by which a member is multiplied and taken away.
#[derive(Clone, Copy)]
pub struct Multiple {
    place: usize,
    factor: Mono,
    number: Fp,
}

/// Divides a polynomial by members. Each step takes the lead away by the first member whose lead
/// divides it; the rest is 0, or no member's lead divides its lead. A member 0 never divides.
pub fn divide(alloc: Global, f: &Poly, basis: &[Poly]) -> Result<Division, NoMemory>
    ensures division { IfOk result (λ d. IsDivision basis.now f.now d.quotients.items d.rest) }
    ensures sum { IfOk result (λ d. f.now ≡ plus (combination d.quotients.items basis.now) d.rest) }
    ensures rest { IfOk result (λ d. IsRest basis.now d.rest) }
{
    let mut quotients = zeros(alloc, basis.len())?;
    let mut dividend = Dividend::of(alloc, f)?;
    while let Some(step) = next_multiple(&dividend, basis) {
        quotients[step.place].append(step.factor, step.number)?;
        dividend = dividend.minus(&step.factor, step.number, &basis[step.place])?;
    }
    let rest = dividend.rest(alloc)?;
    Ok(Division { quotients, rest })
}

/// Whether a polynomial divided by members leaves 0.
pub fn divides_to_zero(alloc: Global, f: &Poly, basis: &[Poly]) -> Result<bool, NoMemory>
    ensures { IfOk result (λ b. IsTrue b ↔ DividesToZero basis.now f.now) }
{
    let left = divided_while_short(alloc, f, basis)?;
    let mut dividend = Dividend::of(alloc, &left)?;
    while let Some(step) = next_multiple(&dividend, basis) {
        dividend = dividend.minus(&step.factor, step.number, &basis[step.place])?;
    }
    Ok(dividend.lead().is_none())
}

/// What the first steps of a division leave, which are made as long as there are few terms: these
/// are merged faster than looked up.
fn divided_while_short(alloc: Global, f: &Poly, basis: &[Poly]) -> Result<Poly, NoMemory>
    ensures { IfOk result (λ p. IsReached basis.now f.now p) }
{
    let mut left = f.copy(alloc)?;
    while let Some(step) = short_multiple(&left, basis) {
        left = less(alloc, &left, &step, &basis[step.place])?;
    }
    Ok(left)
}

/// A polynomial less a multiple of a member.
fn less(alloc: Global, p: &Poly, step: &Multiple, g: &Poly) -> Result<Poly, NoMemory>
    requires { degree step.now.factor + total_degree g.now ≤ MONO_DEGREE }
    ensures { IfOk result (λ q. q ≡ minus p.now (times_term step.now.factor step.now.number g.now)) }
{
    match p.sub_times(alloc, &step.factor, step.number, g) {
        Ok(q) => Ok(q),
        Err(PolyFault::NoMemory) => Err(NoMemory),
        Err(PolyFault::Degree) => unreachable!(),
    }
}

/// The next step of a division, or `None` at its end.
fn next_multiple(dividend: &Dividend, basis: &[Poly]) -> Option<Multiple>
    ensures none { IfNone result (IsRest basis.now dividend.now) }
    ensures within { IfSome result (λ s. s.place < length basis.now) }
    ensures takes { IfSome result (λ s. TakesLead basis.now dividend.now (record { place = s.place; factor = s.factor; number = s.number })) }
    ensures fits { IfSome result (λ s. degree s.factor + total_degree (member basis.now s.place) ≤ MONO_DEGREE) }
{
    multiple_at(dividend.lead(), basis)
}

/// The next step of a division while there are few terms.
fn short_multiple(p: &Poly, basis: &[Poly]) -> Option<Multiple>
    ensures within { IfSome result (λ s. s.place < length basis.now) }
    ensures takes { IfSome result (λ s. TakesLead basis.now p.now (record { place = s.place; factor = s.factor; number = s.number })) }
    ensures fits { IfSome result (λ s. degree s.factor + total_degree (member basis.now s.place) ≤ MONO_DEGREE) }
{
    if p.term_count() > SHORT {
        return None;
    }
    multiple_at(p.lead(), basis)
}

/// The step that takes a lead away, or `None` where there is no lead or no member's lead divides it.
fn multiple_at(lead: Option<(Mono, Fp)>, basis: &[Poly]) -> Option<Multiple>
    ensures none { IfNone result ((p : Polynomial) → lead_of p ≡ lead → IsRest basis.now p) }
    ensures within { IfSome result (λ s. s.place < length basis.now) }
    ensures takes { IfSome result (λ s. (p : Polynomial) → lead_of p ≡ lead → TakesLead basis.now p (record { place = s.place; factor = s.factor; number = s.number })) }
    ensures fits { IfSome result (λ s. degree s.factor + total_degree (member basis.now s.place) ≤ MONO_DEGREE) }
{
    let top = lead?;
    let _limit = top.0.degree();
    let place = first_divisor(basis, &top.0)?;
    let other = basis[place].lead().unwrap();
    let inverse = other.1.inverse().unwrap();
    Some(Multiple {
        place,
        factor: top.0.quotient(&other.0),
        number: top.1.mul(inverse),
    })
}

/// The first member whose lead divides a monomial.
fn first_divisor(basis: &[Poly], m: &Mono) -> Option<usize>
    ensures none { IfNone result (NoneDivides basis.now m.now) }
    ensures some { IfSome result (λ k. IsFirst basis.now m.now k) }
{
    for (i, g) in basis.iter().enumerate() {
        if let Some(lead) = g.lead() {
            if lead.0.divides(m) {
                return Some(i);
            }
        }
    }
    None
}

/// As many polynomials 0.
fn zeros(alloc: Global, count: usize) -> Result<Vec<Poly>, NoMemory>
    ensures { IfOk result (λ v. v.items ≡ replicate count zero_polynomial) }
{
    let mut found = Vec::new(alloc);
    for _ in 0..count {
        found.push(Poly::zero(alloc))?;
    }
    Ok(found)
}
