//! Verdicts worked by hand.

ghost use Rattle.std.specs.Prelude.{◌≤◌, All, IsTrue};
ghost use Rattle.git_algebra.specs.Operations.{total_degree};

use crate::deciding::decide;
use crate::{SatFault, Verdict};
use git_base::NoMemory;
use git_basis::{RUN_DEGREE, Step};
use git_facecert::FaceCert;
use git_field::Fp;
use git_limits::STEPS;
use git_mono::Mono;
use git_poly::Poly;
use std::alloc::Global;
use std::test::Fail;

/// Terms by their exponents of T(1) to T(6), with a coefficient.
type Terms = &'static [([u32; 6], i128)];

/// T(3)*T(4)-T(2)*T(5)+T(1)*T(6), of the planes in four-space.
const PLANES: Terms = &[
    ([0, 0, 1, 1, 0, 0], 1),
    ([0, 1, 0, 0, 1, 0], -1),
    ([1, 0, 0, 0, 0, 1], 1),
];

/// T(1)*T(2).
const PRODUCT: Terms = &[([1, 1, 0, 0, 0, 0], 1)];

/// T(3)^2.
const SQUARE: Terms = &[([0, 0, 2, 0, 0, 0], 1)];

/// The sum of some terms.
fn polynomial(alloc: Global, terms: Terms) -> Result<Poly, NoMemory> {
    let mut sum = Poly::zero(alloc);
    for &(exponents, coefficient) in terms {
        let mut mono = Mono::one();
        for (i, exponent) in exponents.into_iter().enumerate() {
            if i < 17 {
                let power = Mono::power(i, exponent).unwrap_or(mono);
                mono = mono.times(&power).unwrap_or(mono);
            }
        }
        sum = sum.add(alloc, &Poly::term(alloc, mono, Fp::reduce(coefficient))?)?;
    }
    Ok(sum)
}

/// Whether polynomials have small total degrees.
fn are_small(ps: &[Poly]) -> bool
    ensures { IsTrue result → All (λ f. total_degree f ≤ RUN_DEGREE) ps.now }
{
    for p in ps {
        if p.total_degree() > RUN_DEGREE {
            return false;
        }
    }
    true
}

/// The verdict of a face for generators of small degrees.
fn verdict(
    alloc: Global,
    lists: &[Terms],
    mask: u16,
    steps: u64,
) -> Result<Result<Verdict, SatFault>, Fail> {
    let mut generators = Vec::new(alloc);
    for terms in lists {
        generators.push(polynomial(alloc, terms)?)?;
    }
    if generators.len() > 64 || !are_small(&generators) || steps > STEPS {
        return Err("generators".into());
    }
    Ok(decide(alloc, &generators, mask, steps))
}

/// Takes a type that threads may share and move.
fn shared<T: Send + Sync + Drop>(_value: Option<T>) {}

#[test]
fn verdicts_may_be_shared(_rt: HostRuntime) {
    shared::<Verdict>(None);
    shared::<SatFault>(None);
}

/// Whether a certificate is a free one.
fn is_free(cert: &FaceCert) -> bool {
    match cert {
        FaceCert::Free { .. } => true,
        FaceCert::Monomial { .. } => false,
    }
}

/// Whether a face of the planes in four-space is found to be an a-face: exactly one monomial left is
/// the only way to be none.
fn is_found(alloc: Global, mask: u16) -> Result<bool, Fail> {
    let left = [12, 18, 33].iter().filter(|m| mask & **m == **m).count();
    match verdict(alloc, &[PLANES], mask, 1000)? {
        Ok(found) => Ok(is_free(&found.cert) == found.free && found.free == (left != 1)),
        Err(_) => Ok(false),
    }
}

#[test]
fn a_faces_of_planes_in_four_space(rt: HostRuntime) -> Result<(), Fail> {
    let alloc = rt.alloc();
    for mask in 1..64 {
        assert!(rt; is_found(alloc, mask)?, "face {mask}");
    }
    Ok(())
}

/// Whether polynomials are the sums of some terms.
fn are_sums(alloc: Global, ps: &[Poly], lists: &[Terms]) -> Result<bool, NoMemory> {
    for (p, terms) in ps.iter().zip(lists) {
        if !p.sub(alloc, &polynomial(alloc, terms)?)?.is_zero() {
            return Ok(false);
        }
    }
    Ok(ps.len() == lists.len())
}

/// Whether a certificate is a monomial one with this power and these cofactors.
fn has_cofactors(
    alloc: Global,
    cert: &FaceCert,
    power: u32,
    cofactors: &[Terms],
) -> Result<bool, NoMemory> {
    match cert {
        FaceCert::Monomial {
            power: found,
            cofactors: hs,
        } => Ok(*found == power && are_sums(alloc, hs, cofactors)?),
        FaceCert::Free { .. } => Ok(false),
    }
}

/// Whether the verdict is a monomial certificate with this power and these cofactors.
fn is_monomial(
    alloc: Global,
    lists: &[Terms],
    mask: u16,
    power: u32,
    cofactors: &[Terms],
) -> Result<bool, Fail> {
    match verdict(alloc, lists, mask, 2)? {
        Ok(found) => Ok(has_cofactors(alloc, &found.cert, power, cofactors)?),
        Err(_) => Ok(false),
    }
}

#[test]
fn a_product_of_two_variables_is_refuted(rt: HostRuntime) -> Result<(), Fail> {
    let alloc = rt.alloc();
    let third: [Terms; 1] = [&[([0, 0, 1, 0, 0, 0], 1)]];
    assert!(rt; is_monomial(alloc, &[PRODUCT], 7, 1, &third)?);
    // The second generator is 0 on the face of T(1) and T(2).
    let spread: [Terms; 2] = [&[([0, 0, 0, 0, 0, 0], 1)], &[]];
    assert!(rt; is_monomial(alloc, &[PRODUCT, SQUARE], 3, 1, &spread)?);
    Ok(())
}

/// T(1)^(2^20), whose product with y*T(2) is oversized.
const HIGH: Terms = &[([1_048_576, 0, 0, 0, 0, 0], 1)];

/// The step at which a run stops: the last that it made, where it stops by its steps, and the oversized
/// one, where it stops by its degree after none.
fn last_step(alloc: Global, generator: Terms, mask: u16) -> Result<Option<Step>, Fail> {
    match verdict(alloc, &[generator], mask, 1)? {
        Err(SatFault::Steps(trace)) => Ok(trace.steps.last().copied()),
        Err(SatFault::Degree { trace, step }) => Ok(trace.steps.is_empty().then_some(step)),
        _ => Ok(None),
    }
}

/// Whether a run stops by its degree.
fn is_oversized(alloc: Global, generator: Terms, mask: u16) -> Result<bool, Fail> {
    match verdict(alloc, &[generator], mask, 1)? {
        Err(SatFault::Degree { .. }) => Ok(true),
        _ => Ok(false),
    }
}

#[test]
fn runs_stop_by_steps_and_by_degree(rt: HostRuntime) -> Result<(), Fail> {
    let alloc = rt.alloc();
    for (name, generator, mask, high) in [("steps", PLANES, 63, false), ("degree", HIGH, 3, true)] {
        assert_eq!(rt;
            last_step(alloc, generator, mask)?,
            Some(Step::Take(0, 1)),
            "{name}"
        );
        assert_eq!(rt; is_oversized(alloc, generator, mask)?, high, "{name}");
    }
    Ok(())
}
