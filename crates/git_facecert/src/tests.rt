//! Certificates worked by hand.
ghost use Rattle.git_facecert.specs.Answers.{IsOfFewLines};

use crate::Accepted::{self, No, Yes};
use crate::Place::{Clear, Generator, Member, Pair, Product};
use crate::judging::accept_for;
use crate::{CERT_DEGREE, FaceCert, FaceVerdict, accept};
use git_base::NoMemory;
use git_field::Fp;
use git_grading::Grading;
use git_input::Input;
use git_ints::IVec;
use git_mono::Mono;
use git_poly::Poly;
use std::alloc::Global;
use std::test::*;

/// Terms by their exponents of T(1), T(2), T(3) and y, with a number.
type Terms = &'static [([u32; 4], i128)];

/// Generators, a face's mask, the power and the cofactors of a monomial certificate, and its answer.
type MonomialCase = (&'static [Terms], u16, u32, &'static [Terms], Accepted);

/// Generators, a face's mask, the members of a free certificate, and its answer.
type FreeCase = (&'static [Terms], u16, &'static [Terms], Accepted);

const PLANE: &[Terms] = &[];

const PRODUCT: &[Terms] = &[FIRST_TWO];

const QUADRIC: &[Terms] = &[CONIC];

const TWO: &[Terms] = &[FIRST_TWO, &[([0, 0, 2, 0], 1)]];

const ALL_CLEAR: Terms = &[([1, 1, 1, 1], -1), ([0, 0, 0, 0], 1)];

const EDGE_CLEAR: Terms = &[([1, 0, 1, 1], -1), ([0, 0, 0, 0], 1)];

const ON_EDGE: &[Terms] = &[EDGE_CLEAR];

const CONIC: Terms = &[([1, 1, 0, 0], 1), ([0, 0, 2, 0], -1)];

const CUBE_CLEAR: Terms = &[([0, 0, 3, 1], -1), ([0, 0, 0, 0], 1)];

const FIRST_TWO: Terms = &[([1, 1, 0, 0], 1)];

const THIRD: Terms = &[([0, 0, 1, 0], 1)];

const MONOMIAL_CASES: [MonomialCase; 10] = [
    (PRODUCT, 7, 1, &[THIRD], Yes),
    (QUADRIC, 5, 2, &[&[([2, 0, 0, 0], -1)]], Yes),
    (
        PRODUCT,
        7,
        1048576,
        &[&[([1048575, 1048575, 1048576, 0], 1)]],
        Yes,
    ),
    (
        PRODUCT,
        7,
        1048577,
        &[&[([1048576, 1048576, 1048577, 0], 1)]],
        No(Product),
    ),
    (PRODUCT, 7, 1, &[THIRD, THIRD], No(Product)),
    (PRODUCT, 3, 1, &[THIRD], No(Member(1))),
    (PRODUCT, 7, 1, &[&[([0, 0, 1, 1], 1)]], No(Member(1))),
    (PRODUCT, 7, 1, &[&[([0, 0, 33554433, 0], 1)]], No(Member(1))),
    (PRODUCT, 7, 1, &[&[([0, 0, 1, 0], 2)]], No(Product)),
    (TWO, 7, 1, &[THIRD, &[([0, 0, 0, 1], 1)]], No(Member(2))),
];

const FREE_CASES: [FreeCase; 18] = [
    (PLANE, 7, &[ALL_CLEAR], Yes),
    (PLANE, 5, &[EDGE_CLEAR], Yes),
    (PLANE, 7, &[ALL_CLEAR, ALL_CLEAR], Yes),
    (PRODUCT, 5, &[EDGE_CLEAR], Yes),
    (QUADRIC, 7, &[CONIC, CUBE_CLEAR], Yes),
    (QUADRIC, 7, &[CONIC, CUBE_CLEAR, CONIC], Yes),
    (PLANE, 5, &[ALL_CLEAR], No(Member(1))),
    (QUADRIC, 7, &[CONIC, &[]], No(Member(2))),
    (QUADRIC, 7, &[&[([0, 0, 0, 0], 5)]], No(Member(1))),
    (PLANE, 7, &[&[([0, 0, 33554433, 0], 1)]], No(Member(1))),
    (QUADRIC, 5, &[EDGE_CLEAR], No(Generator(1))),
    (PRODUCT, 7, &[], No(Generator(1))),
    (TWO, 7, &[FIRST_TWO, ALL_CLEAR], No(Generator(2))),
    (PLANE, 7, &[], No(Clear)),
    (QUADRIC, 7, &[CONIC], No(Clear)),
    (PRODUCT, 7, &[ALL_CLEAR, FIRST_TWO], No(Pair(1, 2))),
    (
        PRODUCT,
        7,
        &[ALL_CLEAR, ALL_CLEAR, FIRST_TWO],
        No(Pair(1, 3)),
    ),
    (
        TWO,
        7,
        &[FIRST_TWO, &[([0, 0, 2, 0], 1)], ALL_CLEAR],
        No(Clear),
    ),
];

/// The sum of some terms.
fn polynomial(alloc: Global, terms: Terms) -> Result<Poly, NoMemory> {
    let mut sum = Poly::zero(alloc);
    for &(exponents, number) in terms {
        let mut mono = Mono::one();
        for (exponent, place) in exponents.into_iter().zip([0, 1, 2, 16]) {
            let power = Mono::power(place, exponent).unwrap_or(mono);
            mono = mono.times(&power).unwrap_or(mono);
        }
        sum = sum.add(alloc, &Poly::term(alloc, mono, Fp::reduce(number))?)?;
    }
    Ok(sum)
}

fn polynomials(alloc: Global, sums: &[Terms]) -> Result<Vec<Poly>, NoMemory> {
    let mut made = Vec::new(alloc);
    for terms in sums {
        made.push(polynomial(alloc, terms)?)?;
    }
    Ok(made)
}

/// The answer to a certificate of few lines, where the generators are small.
fn answer(alloc: Global, generators: &[Poly], mask: u16, cert: &FaceCert) -> Option<Accepted>
    requires { IsOfFewLines cert.now }
{
    if 100 < generators.len() {
        return None;
    }
    if !generators.iter().all(|f| f.total_degree() <= CERT_DEGREE) {
        return None;
    }
    accept_for(alloc, generators, mask, cert).ok()
}

fn monomial_answer(alloc: Global, case: &MonomialCase) -> Option<Accepted> {
    let generators = polynomials(alloc, case.0).ok()?;
    let cofactors = polynomials(alloc, case.3).ok()?;
    if 100 < cofactors.len() {
        return None;
    }
    let power = case.2;
    let cert = FaceCert::Monomial { power, cofactors };
    answer(alloc, &generators, case.1, &cert)
}

fn free_answer(alloc: Global, case: &FreeCase) -> Option<Accepted> {
    let generators = polynomials(alloc, case.0).ok()?;
    let basis = polynomials(alloc, case.2).ok()?;
    if 100 < basis.len() {
        return None;
    }
    answer(alloc, &generators, case.1, &FaceCert::Free { basis })
}

/// The plane with three columns and the ideal 0.
fn plane(alloc: Global) -> Option<Input> {
    let columns = [IVec::of(&[1, 0]), IVec::of(&[1, 1]), IVec::of(&[0, 1])]
        .to_vec(alloc)
        .ok()?;
    let grading = Grading::of(alloc, 2, columns).ok()?;
    let generators = Vec::new(alloc);
    Some(Input {
        grading,
        generators,
    })
}

/// The answer for the plane.
fn plane_answer(alloc: Global, mask: u16, members: &'static [Terms]) -> Option<Accepted> {
    let input = plane(alloc)?;
    let basis = polynomials(alloc, members).ok()?;
    if 100 < basis.len() {
        return None;
    }
    accept(alloc, &input, mask, &FaceCert::Free { basis }).ok()
}

/// Takes a type that threads may share and move.
fn shared<T: Send + Sync + Drop>(_value: Option<T>) {}

#[test]
fn certificates_are_judged(rt: HostRuntime) -> Result<(), Fail> {
    shared::<FaceVerdict>(None);
    for (i, case) in MONOMIAL_CASES.iter().enumerate() {
        let answer = monomial_answer(rt.alloc(), case);
        assert!(rt; answer == Some(case.4), "monomial case {i}");
    }
    for (i, case) in FREE_CASES.iter().enumerate() {
        let answer = free_answer(rt.alloc(), case);
        assert!(rt; answer == Some(case.3), "free case {i}");
    }
    assert!(rt; plane_answer(rt.alloc(), 5, ON_EDGE) == Some(Yes));
    assert!(rt; plane_answer(rt.alloc(), 7, ON_EDGE) == Some(No(Clear)));
    Ok(())
}
