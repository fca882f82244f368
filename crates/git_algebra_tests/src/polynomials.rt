//! Polynomials worked by hand, in T(1), T(2), T(3) and y.

ghost use Rattle.std.specs.Prelude.{IsTrue};
ghost use Rattle.git_poly.specs.Degrees.{IsGradedBy};

use git_base::NoMemory;
use git_field::Fp;
use git_grading::Grading;
use git_ints::IVec;
use git_mono::{MONO_DEGREE, Mono};
use git_poly::{Poly, PolyFault, degree_of};
use std::alloc::Global;
use std::test::Fail;

/// The monomial with these exponents of T(1), T(2), T(3) and y.
fn monomial(exponents: [u32; 4]) -> Mono {
    let mut found = Mono::one();
    let powers = [
        Mono::power(0, exponents[0]),
        Mono::power(1, exponents[1]),
        Mono::power(2, exponents[2]),
        Mono::power(16, exponents[3]),
    ];
    for power in powers {
        found = found.times(&power.unwrap_or(Mono::one())).unwrap_or(found);
    }
    found
}

/// The sum of some terms.
fn polynomial(alloc: Global, terms: &[([u32; 4], i128)]) -> Result<Poly, NoMemory> {
    let mut sum = Poly::zero(alloc);
    for &(exponents, number) in terms {
        let term = Poly::term(alloc, monomial(exponents), Fp::reduce(number))?;
        sum = sum.add(alloc, &term)?;
    }
    Ok(sum)
}

/// Whether a polynomial is the sum of some terms.
fn is_sum(alloc: Global, p: &Poly, terms: &[([u32; 4], i128)]) -> Result<bool, NoMemory> {
    let expected = polynomial(alloc, terms)?;
    let difference = p.sub(alloc, &expected)?;
    Ok(difference.term_count() == 0)
}

/// Takes a value that threads may share and move.
fn shared<T: Send + Sync>(_value: &T) {}

#[test]
fn sums_and_differences_cancel(rt: HostRuntime) -> Result<(), Fail> {
    let alloc = rt.alloc();
    let p = polynomial(
        alloc,
        &[([0, 1, 0, 0], 3), ([2, 0, 0, 0], 1), ([0, 0, 0, 0], -2)],
    )?;
    let q = polynomial(
        alloc,
        &[([2, 0, 0, 0], 32002), ([0, 0, 1, 0], 5), ([0, 0, 0, 0], -2)],
    )?;
    let sum = p.add(alloc, &q)?;
    let difference = p.sub(alloc, &q)?;
    let multiple = p.scale(alloc, Fp::reduce(-2))?;
    shared(&p);
    assert_eq!(rt; (p.term_count(), sum.term_count()), (3, 3));
    assert!(rt;
        is_sum(
            alloc,
            &sum,
            &[([0, 1, 0, 0], 3), ([0, 0, 1, 0], 5), ([0, 0, 0, 0], -4)]
        )?
    );
    assert!(rt;
        is_sum(
            alloc,
            &difference,
            &[([2, 0, 0, 0], 2), ([0, 1, 0, 0], 3), ([0, 0, 1, 0], -5)]
        )?
    );
    assert!(rt;
        is_sum(
            alloc,
            &multiple,
            &[([2, 0, 0, 0], -2), ([0, 1, 0, 0], -6), ([0, 0, 0, 0], 4)]
        )?
    );
    assert_eq!(rt; p.scale(alloc, Fp::reduce(0))?.term_count(), 0);
    Ok(())
}

#[test]
fn products_merge_like_terms(rt: HostRuntime) -> Result<(), Fail> {
    let alloc = rt.alloc();
    let zero = Poly::zero(alloc);
    let sum = polynomial(alloc, &[([1, 0, 0, 0], 1), ([0, 1, 0, 0], 1)])?;
    let difference = polynomial(alloc, &[([1, 0, 0, 0], 1), ([0, 1, 0, 0], -1)])?;
    let product = sum.times(alloc, &difference).unwrap_or(zero);
    assert!(rt; is_sum(alloc, &product, &[([2, 0, 0, 0], 1), ([0, 2, 0, 0], -1)])?);
    let square = sum.times(alloc, &sum).unwrap_or(product);
    let less = square.sub_times(alloc, &monomial([0, 1, 0, 0]), Fp::reduce(2), &sum);
    let less = less.unwrap_or(difference);
    assert!(rt; is_sum(alloc, &less, &[([2, 0, 0, 0], 1), ([0, 2, 0, 0], -1)])?);
    assert!(rt;
        is_sum(
            alloc,
            &square,
            &[([2, 0, 0, 0], 1), ([1, 1, 0, 0], 2), ([0, 2, 0, 0], 1)]
        )?
    );
    let shifted = sum
        .times_term(alloc, &monomial([0, 0, 1, 1]), Fp::reduce(7))
        .unwrap_or(square);
    assert!(rt; is_sum(alloc, &shifted, &[([1, 0, 1, 1], 7), ([0, 1, 1, 1], 7)])?);
    Ok(())
}

/// Powers of T(1), `step` apart, from 0 on.
fn powers(alloc: Global, step: u32, count: u32) -> Result<Poly, NoMemory> {
    let mut sum = Poly::zero(alloc);
    for i in 0..count {
        let power = Mono::power(0, i.saturating_mul(step)).unwrap_or(Mono::one());
        sum = sum.add(alloc, &Poly::term(alloc, power, Fp::reduce(7))?)?;
    }
    Ok(sum)
}

/// Whether a polynomial less a multiple of another is the same in one pass and term by term.
fn is_less_by_terms(alloc: Global, p: &Poly, m: &Mono, g: &Poly) -> Result<bool, NoMemory> {
    let c = Fp::reduce(5);
    let Ok(less) = p.sub_times(alloc, m, c, g) else {
        return Ok(false);
    };
    let Ok(multiple) = g.times_term(alloc, m, c) else {
        return Ok(false);
    };
    let difference = less.sub(alloc, &p.sub(alloc, &multiple)?)?;
    Ok(difference.is_zero())
}

/// Between two terms of the multiple lie none, few or many terms.
#[test]
fn multiples_are_taken_away_in_pieces(rt: HostRuntime) -> Result<(), Fail> {
    let alloc = rt.alloc();
    let p = powers(alloc, 1, 120)?;
    for (step, count) in [
        (1, 120),
        (2, 60),
        (3, 40),
        (4, 30),
        (31, 5),
        (32, 5),
        (33, 5),
        (119, 2),
        (120, 2),
        (200, 2),
    ] {
        let g = powers(alloc, step, count)?;
        for m in [monomial([0, 0, 0, 0]), monomial([3, 0, 0, 0])] {
            assert!(rt; is_less_by_terms(alloc, &p, &m, &g)?, "steps of {step}");
        }
    }
    Ok(())
}

#[test]
fn terms_are_read_in_descending_order(rt: HostRuntime) -> Result<(), Fail> {
    let alloc = rt.alloc();
    let p = polynomial(
        alloc,
        &[
            ([0, 0, 0, 1], 6),
            ([1, 1, 0, 0], 4),
            ([0, 0, 0, 0], 7),
            ([0, 0, 1, 0], 5),
        ],
    )?;
    let mut next = 4;
    for i in 0..p.term_count() {
        let (mono, number) = p.term_at(i);
        assert_eq!(rt; number.value(), next);
        assert_eq!(rt; p.coefficient(&mono).value(), next);
        next = next.wrapping_add(1);
    }
    assert_eq!(rt; next, 8);
    assert_eq!(rt; p.lead(), Some((monomial([1, 1, 0, 0]), Fp::reduce(4))));
    assert_eq!(rt; p.coefficient(&monomial([1, 0, 0, 0])).value(), 0);
    assert_eq!(rt; (p.total_degree(), p.is_zero()), (2, false));
    assert_eq!(rt; (p.is_in_face(0b111), p.is_in_face(0x10007)), (false, true));
    assert!(rt;
        is_sum(
            alloc,
            &p.restrict(alloc, 0b011)?,
            &[([1, 1, 0, 0], 4), ([0, 0, 0, 0], 7)]
        )?
    );
    assert!(rt;
        is_sum(
            alloc,
            &p.copy(alloc)?.restrict(alloc, 0b100)?,
            &[([0, 0, 1, 0], 5), ([0, 0, 0, 0], 7)]
        )?
    );
    Ok(())
}

#[test]
fn products_stop_at_the_degree_limit(rt: HostRuntime) -> Result<(), Fail> {
    let alloc = rt.alloc();
    let greatest = polynomial(alloc, &[([MONO_DEGREE, 0, 0, 0], 1)])?;
    let variable = polynomial(alloc, &[([1, 0, 0, 0], 1)])?;
    let one = polynomial(alloc, &[([0, 0, 0, 0], 1)])?;
    let cases = [
        (greatest.times(alloc, &variable), Some(PolyFault::Degree)),
        (
            greatest.times_term(alloc, &monomial([1, 0, 0, 0]), Fp::reduce(1)),
            Some(PolyFault::Degree),
        ),
        (
            one.sub_times(alloc, &monomial([1, 0, 0, 0]), Fp::reduce(1), &greatest),
            Some(PolyFault::Degree),
        ),
        (greatest.times(alloc, &one), None),
        (greatest.times(alloc, &Poly::zero(alloc)), None),
        (
            greatest.times_term(alloc, &monomial([1, 0, 0, 0]), Fp::reduce(0)),
            None,
        ),
    ];
    for (product, fault) in cases {
        assert_eq!(rt; product.err(), fault);
    }
    Ok(())
}

/// Whether a monomial is in the variables of the columns, with exponents of at most 64.
fn is_graded(g: &Grading, m: &Mono) -> bool
    ensures { IsTrue result → IsGradedBy g.now.columns m.now }
{
    let r = g.r();
    for i in 0..17 {
        let exponent = m.exponent(i);
        if exponent > 64 || (r <= i && exponent != 0) {
            return false;
        }
    }
    true
}

/// Where a polynomial in the variables of the columns is mixed.
fn mixed(g: &Grading, p: &Poly) -> Option<Option<(Mono, Mono)>> {
    for i in 0..p.term_count() {
        if !is_graded(g, &p.term_at(i).0) {
            return None;
        }
    }
    Some(p.mixed(g))
}

#[test]
fn degrees_part_monomials(rt: HostRuntime) -> Result<(), Fail> {
    let alloc = rt.alloc();
    let columns = [IVec::of(&[1, 0]), IVec::of(&[1, 1]), IVec::of(&[-1, 3])].to_vec(alloc)?;
    let grading = Grading::of(alloc, 2, columns)?;
    let product = monomial([5, 4, 2, 0]);
    assert!(rt; is_graded(&grading, &product));
    assert_eq!(rt; degree_of(&grading, &product), IVec::of(&[7, 10]));
    let greatest = monomial([2, 2, 0, 0]);
    let other = monomial([0, 0, 2, 0]);
    let cases = [
        (polynomial(alloc, &[])?, None),
        (
            polynomial(alloc, &[([4, 0, 1, 0], 2), ([0, 3, 0, 0], 1)])?,
            None,
        ),
        (
            polynomial(
                alloc,
                &[
                    ([2, 2, 0, 0], 1),
                    ([0, 0, 0, 0], 3),
                    ([0, 0, 2, 0], 1),
                    ([1, 0, 0, 0], 5),
                ],
            )?,
            Some((greatest, other)),
        ),
    ];
    for (p, expected) in cases {
        assert_eq!(rt; mixed(&grading, &p), Some(expected));
    }
    Ok(())
}
