//! Divisions and S-polynomials worked by hand, in T(1) and T(2).

use git_base::NoMemory;
use git_field::Fp;
use git_mono::{MONO_DEGREE, Mono};
use git_poly::{Poly, PolyFault};
use git_reduce::{divide, divides_to_zero, s_poly};
use std::alloc::Global;
use std::test::Fail;

/// Terms by their exponents of T(1) and T(2), with a number.
type Terms<'a> = &'a [(u32, u32, i128)];

/// The sum of some terms.
fn polynomial(alloc: Global, terms: Terms<'_>) -> Result<Poly, NoMemory> {
    let mut sum = Poly::zero(alloc);
    for &(first, second, number) in terms {
        let one = Mono::one();
        let mono = Mono::power(0, first)
            .unwrap_or(one)
            .times(&Mono::power(1, second).unwrap_or(one))
            .unwrap_or(one);
        sum = sum.add(alloc, &Poly::term(alloc, mono, Fp::reduce(number))?)?;
    }
    Ok(sum)
}

/// Whether a polynomial is the sum of some terms.
fn is_sum(alloc: Global, p: &Poly, terms: Terms<'_>) -> Result<bool, NoMemory> {
    let difference = p.sub(alloc, &polynomial(alloc, terms)?)?;
    Ok(difference.term_count() == 0)
}

/// Takes a value that threads may share and move.
fn shared<T: Send + Sync>(_value: &T) {}

#[test]
fn the_first_member_that_divides_is_taken(rt: HostRuntime) -> Result<(), Fail> {
    let alloc = rt.alloc();
    let mut basis = Vec::new(alloc);
    basis.push(polynomial(alloc, &[(1, 0, 1), (0, 1, -1)])?)?;
    basis.push(polynomial(alloc, &[])?)?;
    basis.push(polynomial(alloc, &[(1, 0, 2)])?)?;
    // What is divided, its quotients by the first and the last member, and the rest.
    let cases: [(Terms<'_>, Terms<'_>, Terms<'_>, Terms<'_>); 4] = [
        (&[(2, 0, 1)], &[(1, 0, 1), (0, 1, 1)], &[], &[(0, 2, 1)]),
        (&[(0, 2, 1), (1, 0, 7)], &[], &[], &[(0, 2, 1), (1, 0, 7)]),
        (&[(2, 0, 3), (0, 2, -3)], &[(1, 0, 3), (0, 1, 3)], &[], &[]),
        (&[], &[], &[], &[]),
    ];
    for (f, first, last, rest) in cases {
        let f = polynomial(alloc, f)?;
        let division = divide(alloc, &f, &basis)?;
        shared(&division);
        assert_eq!(rt; division.quotients.len(), 3);
        let quotients = [(0, first), (1, &[]), (2, last)];
        for (i, expected) in quotients {
            let quotient = division.quotients.get(i);
            let is = quotient.map(|q| is_sum(alloc, q, expected));
            assert!(rt; is == Some(Ok(true)), "quotient {i}");
        }
        assert!(rt; is_sum(alloc, &division.rest, rest)?);
        assert_eq!(rt; divides_to_zero(alloc, &f, &basis)?, rest.is_empty());
    }
    Ok(())
}

#[test]
fn later_members_divide_what_earlier_ones_do_not(rt: HostRuntime) -> Result<(), Fail> {
    let alloc = rt.alloc();
    let mut basis = Vec::new(alloc);
    basis.push(polynomial(alloc, &[(1, 1, 5), (0, 0, -1)])?)?;
    basis.push(polynomial(alloc, &[(0, 2, 1), (1, 0, 1)])?)?;
    let f = polynomial(alloc, &[(1, 2, 5), (0, 2, 1)])?;
    let division = divide(alloc, &f, &basis)?;
    let quotients: [Terms<'_>; 2] = [&[(0, 1, 1)], &[(0, 0, 1)]];
    for (quotient, expected) in division.quotients.iter().zip(quotients) {
        assert!(rt; is_sum(alloc, quotient, expected)?);
    }
    assert!(rt; is_sum(alloc, &division.rest, &[(1, 0, -1), (0, 1, 1)])?);
    assert!(rt; !divides_to_zero(alloc, &f, &basis)?);
    assert!(rt; !divides_to_zero(alloc, &f, &[])?);
    Ok(())
}

/// Powers of T(1) or of T(2), from 0 on.
fn powers(alloc: Global, variable: usize, count: u32) -> Result<Poly, NoMemory> {
    let mut sum = Poly::zero(alloc);
    for i in 0..count {
        let mono = if variable == 0 {
            Mono::power(0, i)
        } else {
            Mono::power(1, i)
        };
        sum = sum.add(
            alloc,
            &Poly::term(alloc, mono.unwrap_or(Mono::one()), Fp::reduce(1))?,
        )?;
    }
    Ok(sum)
}

/// Whether both ways of dividing say that the rest is 0, or not.
fn divide_alike(alloc: Global, f: &Poly, basis: &[Poly], zero: bool) -> Result<bool, NoMemory> {
    let division = divide(alloc, f, basis)?;
    Ok(division.rest.is_zero() == zero && divides_to_zero(alloc, f, basis)? == zero)
}

/// The divisions without quotients begin with lists and go on with a map where there are many terms.
#[test]
fn few_terms_and_many_divide_alike(rt: HostRuntime) -> Result<(), Fail> {
    let alloc = rt.alloc();
    let mut basis = Vec::new(alloc);
    basis.push(polynomial(alloc, &[(1, 0, 1), (0, 1, -1)])?)?;
    for count in [1, 15, 16, 17, 32, 33, 50] {
        let sum = powers(alloc, 0, count)?;
        assert!(rt; divide_alike(alloc, &sum, &basis, false)?, "{count} terms");
        let Ok(product) = sum.times(alloc, &polynomial(alloc, &[(1, 0, 1), (0, 1, -1)])?) else {
            return Ok(assert!(rt; false));
        };
        assert!(rt;
            divide_alike(alloc, &product, &basis, true)?,
            "twice {count} terms"
        );
    }
    Ok(())
}

/// The terms become many while a dividend of two terms is divided.
#[test]
fn dividends_may_grow(rt: HostRuntime) -> Result<(), Fail> {
    let alloc = rt.alloc();
    let mut basis = Vec::new(alloc);
    let lead = polynomial(alloc, &[(20, 0, 1)])?;
    basis.push(lead.sub(alloc, &powers(alloc, 1, 20)?)?)?;
    let f = polynomial(alloc, &[(41, 0, 1), (40, 0, 1)])?;
    assert!(rt; divide_alike(alloc, &f, &basis, false)?);
    let multiple = f.times(alloc, &lead.sub(alloc, &powers(alloc, 1, 20)?)?);
    let Ok(multiple) = multiple else {
        return Ok(assert!(rt; false));
    };
    assert!(rt; divide_alike(alloc, &multiple, &basis, true)?);
    Ok(())
}

#[test]
fn s_polynomials_are_monic_and_stop_at_the_degree_limit(rt: HostRuntime) -> Result<(), Fail> {
    let alloc = rt.alloc();
    // Two polynomials, and their S-polynomial. 16002 is one half and 10668 one third.
    let cases: [(Terms<'_>, Terms<'_>, Option<Terms<'_>>); 4] = [
        (
            &[(2, 0, 1), (0, 1, -1)],
            &[(1, 1, 1), (0, 0, -1)],
            Some(&[(0, 2, -1), (1, 0, 1)]),
        ),
        (
            &[(2, 0, 2), (0, 1, -1)],
            &[(1, 1, 3), (0, 0, -1)],
            Some(&[(0, 2, -16002), (1, 0, 10668)]),
        ),
        (&[(MONO_DEGREE, 0, 1)], &[(MONO_DEGREE, 0, 7)], Some(&[])),
        (&[(MONO_DEGREE, 0, 1)], &[(0, 1, 1)], None),
    ];
    for (f, g, expected) in cases {
        let f = polynomial(alloc, f)?;
        let g = polynomial(alloc, g)?;
        let found = pair(alloc, &f, &g);
        match expected {
            Some(terms) => {
                let is = found.map(|s| is_sum(alloc, &s, terms));
                assert!(rt; is == Ok(Ok(true)));
            }
            None => assert_eq!(rt; found.err(), Some(PolyFault::Degree)),
        }
    }
    Ok(())
}

/// The S-polynomial of two polynomials, 0 where one of them is 0.
fn pair(alloc: Global, f: &Poly, g: &Poly) -> Result<Poly, PolyFault> {
    if f.lead().is_none() || g.lead().is_none() {
        return Ok(Poly::zero(alloc));
    }
    s_poly(alloc, f, g)
}
