//! Certificates at their limits, and wrong ones.
ghost use Rattle.std.specs.Prelude.{IsTrue};
ghost use Rattle.git_facecert.specs.Answers.{IsOfFewLines};

use git_base::NoMemory;
use git_facecert::Accepted::{self, No, Yes};
use git_facecert::Place::{Member, Product};
use git_facecert::{FaceCert, accept};
use git_field::Fp;
use git_mono::Mono;
use git_poly::Poly;
use git_text::read_input;
use std::alloc::Global;
use std::test::Fail;

/// Three columns in the quadrant and the ideal 0.
const PLANE: &[u8] = b"gitfan 1\ngrading 2 3\n1 1 0\n0 1 1\nideal 0\nend\n";

/// The same columns, and an ideal with a monomial.
const MONOMIAL: &[u8] = b"gitfan 1\ngrading 2 3\n1 1 0\n0 1 1\nideal 1\nT(1)*T(2)\nend\n";

/// A quadric, and columns for which it is homogeneous.
const QUADRIC: &[u8] = b"gitfan 1\ngrading 2 3\n2 0 1\n0 2 1\nideal 1\nT(1)*T(2)-T(3)^2\nend\n";

/// Terms by their exponents of T(1), T(2), T(3) and y, with a number.
type Terms = &'static [([u32; 4], i128)];

/// What a certificate is made of.
enum Lines {
    Monomial(u32, &'static [Terms]),
    Free(&'static [Terms]),
}

/// A name, an input, the mask of a face, its certificate, and the answer.
type Row = (&'static str, &'static [u8], u16, Lines, Accepted);

const CLEARING: Terms = &[([1, 1, 1, 1], -1), ([0, 0, 0, 0], 1)];

const GREAT: Terms = &[([1_048_575, 1_048_575, 1_048_576, 0], 1)];

const ROWS: &[Row] = &[
    (
        "a member twice",
        PLANE,
        7,
        Lines::Free(&[CLEARING, CLEARING]),
        Yes,
    ),
    (
        "the greatest power",
        MONOMIAL,
        7,
        Lines::Monomial(1_048_576, &[GREAT]),
        Yes,
    ),
    (
        "one power more",
        MONOMIAL,
        7,
        Lines::Monomial(1_048_577, &[GREAT]),
        No(Product),
    ),
    (
        "no cofactor",
        MONOMIAL,
        7,
        Lines::Monomial(1, &[]),
        No(Product),
    ),
    (
        "a variable of no face",
        QUADRIC,
        5,
        Lines::Free(&[&[([0, 1, 0, 0], 1)]]),
        No(Member(1)),
    ),
    (
        "the member 0",
        QUADRIC,
        5,
        Lines::Free(&[&[]]),
        No(Member(1)),
    ),
    (
        "the member 1",
        QUADRIC,
        5,
        Lines::Free(&[&[([0, 0, 0, 0], 1)]]),
        No(Member(1)),
    ),
];

/// The sum of some terms.
fn polynomial(alloc: Global, terms: Terms) -> Result<Poly, NoMemory> {
    let mut sum = Poly::zero(alloc);
    for &(exponents, number) in terms {
        let mut mono = Mono::one();
        for (exponent, place) in exponents.into_iter().zip([0, 1, 2, 16]) {
            let power = Mono::power(place, exponent).unwrap_or(mono);
            mono = mono.times(&power).unwrap_or(mono);
        }
        sum = sum.add(alloc, &Poly::term(alloc, mono, Fp::reduce(number))?)?;
    }
    Ok(sum)
}

fn polynomials(alloc: Global, sums: &[Terms]) -> Result<Vec<Poly>, NoMemory> {
    let mut made = Vec::new(alloc);
    for terms in sums {
        made.push(polynomial(alloc, terms)?)?;
    }
    Ok(made)
}

/// The certificate of some lines.
fn certificate(alloc: Global, lines: &Lines) -> Result<FaceCert, NoMemory> {
    Ok(match lines {
        Lines::Monomial(power, cofactors) => FaceCert::Monomial {
            power: *power,
            cofactors: polynomials(alloc, cofactors)?,
        },
        Lines::Free(members) => FaceCert::Free {
            basis: polynomials(alloc, members)?,
        },
    })
}

/// Whether a certificate has few enough lines for their numbers.
fn is_short(cert: &FaceCert) -> bool
    ensures { IsTrue result → IsOfFewLines cert.now }
{
    match cert {
        FaceCert::Monomial { cofactors, .. } => cofactors.len() <= 100,
        FaceCert::Free { basis } => basis.len() <= 100,
    }
}

/// Whether a certificate is answered as a row says.
fn is_answered(alloc: Global, row: &Row) -> bool {
    let (_name, bytes, mask, lines, answer) = row;
    if bytes.len() > 1000 {
        return false;
    }
    let Ok(input) = read_input(alloc, bytes) else {
        return false;
    };
    let Ok(cert) = certificate(alloc, lines) else {
        return false;
    };
    is_short(&cert) && accept(alloc, &input, *mask, &cert) == Ok(*answer)
}

#[test]
fn certificates_at_their_limits_are_judged(rt: HostRuntime) -> Result<(), Fail> {
    for row in ROWS {
        assert!(rt; is_answered(rt.alloc(), row), "{}", row.0);
    }
    Ok(())
}
