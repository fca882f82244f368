//! Texts worked by hand.
use super::*;
use git_base::NoMemory;
use git_facecert::{FaceCert, FaceVerdict};
use git_field::Fp;
use git_lines::FormKind;
use git_mono::Mono;
use git_poly::Poly;
use std::alloc::Global;
use std::test::Fail;

/// The exponents of T(1), T(2), T(3) and y, and the number of each term.
type Terms = &'static [([u32; 4], i128)];

fn polynomial(alloc: Global, terms: Terms) -> Result<Poly, NoMemory> {
    let mut sum = Poly::zero(alloc);
    for &(exponents, number) in terms {
        let mut mono = Mono::one();
        for (exponent, place) in exponents.into_iter().zip([0, 1, 2, 16]) {
            let power = Mono::power(place, exponent).unwrap_or(mono);
            mono = mono.times(&power).unwrap_or(mono);
        }
        sum = sum.add(alloc, &Poly::term(alloc, mono, Fp::reduce(number))?)?;
    }
    Ok(sum)
}

/// For the ideal of T(1)*T(2): no monomial lies in face 5, and T(1)*T(2)*T(3) in face 7.
fn verdicts(alloc: Global) -> Result<Vec<FaceVerdict>, NoMemory> {
    let cofactors = [polynomial(alloc, &[([0, 0, 1, 0], 1)])?];
    let basis = [polynomial(alloc, &[([1, 0, 1, 1], -1), ([0, 0, 0, 0], 1)])?];
    let monomial = FaceVerdict {
        mask: 7,
        cert: FaceCert::Monomial {
            power: 1,
            cofactors: Vec::from_array(alloc, cofactors)?,
        },
    };
    let free = FaceVerdict {
        mask: 5,
        cert: FaceCert::Free {
            basis: Vec::from_array(alloc, basis)?,
        },
    };
    Ok(Vec::from_array(alloc, [monomial, free])?)
}

#[test]
fn certificates_are_printed(rt: HostRuntime) -> Result<(), Fail> {
    let verdicts = verdicts(rt.alloc())?;
    let text = print(rt.alloc(), &verdicts)?;
    let lines =
        b"gitfan-certs 1\nfaces 2\nface 7 monomial 1 1\nh T(3)\nface 5 free 1\ng -T(1)*T(3)*y+1\nend\n";
    assert_eq!(rt; text.as_slice(), lines.as_slice());
    assert_eq!(rt;
        print(rt.alloc(), &[])?.as_slice(),
        b"gitfan-certs 1\nfaces 0\nend\n".as_slice()
    );
    for verdict in &verdicts {
        let block = print_one(rt.alloc(), verdict)?;
        assert!(rt; block.starts_with(b"face ") && block.ends_with(b"\n"));
    }
    Ok(())
}

const TEXT: &str =
    "gitfan-certs 1\nfaces 2\nface 7 monomial 1 1\nh T(3)\nface 5 free 1\ng -T(1)*T(3)*y+1\nend\n";

/// The line of the first fault and its kind by number, with three variables; (0, 0) for what is read.
fn fault(alloc: Global, bytes: &[u8]) -> (u32, u8) {
    if bytes.len() > 1000 {
        return (0, 9);
    }
    match read(alloc, 3, bytes) {
        Ok(_) => (0, 0),
        Err(CertsFault::NoMemory) => (0, 8),
        Err(CertsFault::BadCerts { line, kind }) => (
            line,
            match kind {
                FormKind::Header => 1,
                FormKind::Number => 2,
                FormKind::Count => 3,
                FormKind::Range => 4,
                FormKind::Syntax => 5,
                FormKind::Truncated => 6,
                FormKind::Trailing => 7,
            },
        ),
    }
}

/// What stands in the text once, what is put there instead, and the first fault.
const CHANGES: [(&str, &str, (u32, u8)); 20] = [
    ("end\n", "end\n", (0, 0)),
    ("end\n", "end", (7, 6)),
    ("end\n", "end\n\n", (8, 7)),
    ("certs 1", "certs 2", (1, 1)),
    ("faces 2", "faces 3", (7, 5)),
    ("faces 2", "faces 65537", (2, 4)),
    ("face 7", "face 8", (3, 4)),
    ("face 7", "face 0", (3, 4)),
    ("face 7", "face  7", (3, 5)),
    ("face 7", "face 07", (3, 2)),
    ("monomial 1 1", "monomial 1048577 1", (3, 4)),
    ("monomial 1 1", "monomial 1 65", (3, 4)),
    ("monomial 1 1", "monomial 1", (3, 3)),
    ("free 1", "free 0", (5, 4)),
    ("free 1", "some 1", (5, 5)),
    ("h T(3)", "h T(4)", (4, 4)),
    ("h T(3)", "h", (4, 3)),
    ("h T(3)", "h ", (4, 5)),
    ("h T(3)", "h T(3) 1", (4, 3)),
    ("h T(3)", "g T(3)", (4, 5)),
];

#[test]
fn changed_certificates_have_their_first_fault(rt: HostRuntime) -> Result<(), Fail> {
    let alloc = rt.alloc();
    for (old, new, wanted) in CHANGES {
        let changed = TEXT.replacen(alloc, old, new, 1)?;
        assert!(rt; fault(alloc, changed.as_bytes()) == wanted, "at {new}");
    }
    Ok(())
}
