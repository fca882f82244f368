//! Monomial certificates.
ghost use Rattle.std.specs.Prelude.{◌≡◌, ◌≤◌, ◌<◌, ◌^◌, ◌↔◌, IfOk, IsTrue, IfSome, IfNone, All, length, map};
ghost use Rattle.git_algebra.specs.Operations.{restricted, total_degree};
ghost use Rattle.git_ideals.specs.Ideals.{combination};
ghost use Rattle.git_facecert.specs.Certificates.{IsCofactor};
ghost use Rattle.git_facecert.specs.Answers.{FirstLacks, IsMonomialAnswer};

use crate::certificate::{Accepted, CERT_DEGREE, CERT_POWER, Place};
use crate::face::face_power;
use git_base::NoMemory;
use git_field::Fp;
use git_mono::Mono;
use git_poly::{Poly, PolyFault};
use std::alloc::Global;

/// Whether a polynomial is in the face's variables and of total degree at most 2^25.
fn is_cofactor(mask: u16, h: &Poly) -> bool
    ensures { IsTrue result ↔ IsCofactor mask h.now }
{
    h.is_in_face(u32::from(mask)) && h.total_degree() <= CERT_DEGREE
}

/// The number, from 1, of the first that is no cofactor.
fn first_other(mask: u16, cofactors: &[Poly]) -> Option<u32>
    requires { length cofactors.now < 2 ^ 32 }
    ensures none { IfNone result (All (IsCofactor mask) cofactors.now) }
    ensures some { IfSome result (λ n. FirstLacks (IsCofactor mask) cofactors.now n) }
{
    for (i, h) in cofactors.iter().enumerate() {
        if !is_cofactor(mask, h) {
            return Some(i as u32 + 1);
        }
    }
    None
}

/// The product of two polynomials of total degree at most 2^25 each.
fn product(alloc: Global, h: &Poly, f: &Poly) -> Result<Poly, NoMemory>
    requires first { total_degree h.now ≤ 2 ^ 25 }
    requires second { total_degree f.now ≤ 2 ^ 25 }
    ensures { IfOk result (λ p. p ≡ Rattle.git_algebra.specs.Operations.multiplied h.now f.now) }
{
    match h.times(alloc, f) {
        Ok(p) => Ok(p),
        Err(PolyFault::NoMemory) => Err(NoMemory),
        Err(PolyFault::Degree) => unreachable!(),
    }
}

/// The sum of the products of cofactors with restricted generators, place by place.
fn combined(
    alloc: Global,
    mask: u16,
    cofactors: &[Poly],
    generators: &[Poly],
) -> Result<Poly, NoMemory>
    requires same { length cofactors.now ≡ length generators.now }
    requires cofactors { All (IsCofactor mask) cofactors.now }
    requires generators { All (λ f. total_degree f ≤ 2 ^ 25) generators.now }
    ensures { IfOk result (λ p. p ≡ combination cofactors.now (map (restricted mask) generators.now)) }
{
    let mut sum = Poly::zero(alloc);
    for i in 0..cofactors.len() {
        let restricted = generators[i].restrict(alloc, mask)?;
        let product = product(alloc, &cofactors[i], &restricted)?;
        sum = sum.add(alloc, &product)?;
    }
    Ok(sum)
}

/// Whether a polynomial is a monomial.
fn is_monomial(alloc: Global, p: &Poly, m: Mono) -> Result<bool, NoMemory>
    ensures { IfOk result (λ b. IsTrue b ↔ (p.now ≡ Rattle.git_ideals.specs.Ideals.monomial m)) }
{
    let wanted = Poly::term(alloc, m, Fp::reduce(1))?;
    Ok(p.sub(alloc, &wanted)?.is_zero())
}

/// Whether a monomial certificate is accepted, or where it fails first.
pub(crate) fn accept_monomial(
    alloc: Global,
    generators: &[Poly],
    mask: u16,
    power: u32,
    cofactors: &[Poly],
) -> Result<Accepted, NoMemory>
    requires few { length cofactors.now < 2 ^ 32 }
    requires generators { All (λ f. total_degree f ≤ 2 ^ 25) generators.now }
    ensures { IfOk result (λ a. IsMonomialAnswer generators.now mask power cofactors.now a) }
{
    if cofactors.len() != generators.len() {
        return Ok(Accepted::No(Place::Product));
    }
    if let Some(number) = first_other(mask, cofactors) {
        return Ok(Accepted::No(Place::Member(number)));
    }
    if power > CERT_POWER {
        return Ok(Accepted::No(Place::Product));
    }
    let sum = combined(alloc, mask, cofactors, generators)?;
    if is_monomial(alloc, &sum, face_power(mask, power))? {
        Ok(Accepted::Yes)
    } else {
        Ok(Accepted::No(Place::Product))
    }
}
