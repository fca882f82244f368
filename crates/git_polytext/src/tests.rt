//! Lines worked by hand.
use super::*;
use git_base::NoMemory;
use git_field::Fp;
use git_lines::{FormFault, FormKind, Line};
use git_mono::Mono;
use git_poly::Poly;
use std::alloc::Global;
use std::test::Fail;

/// Reads a line numbered 7.
fn read(alloc: Global, r: usize, text: &[u8]) -> Result<Poly, PolynomialFault> {
    if text.len() > 4000 || r > 16 {
        return Err(PolynomialFault::NoMemory);
    }
    let line = Line { number: 7, text };
    read_polynomial(alloc, &line, r)
}

/// Whether a line is read, and its polynomial has this text.
fn prints(alloc: Global, r: usize, text: &[u8], printed: &[u8]) -> bool {
    let Ok(p) = read(alloc, r, text) else {
        return false;
    };
    let Ok(own) = print_poly(alloc, &p) else {
        return false;
    };
    own.as_slice() == printed
}

/// Whether a line has this fault.
fn fails(alloc: Global, r: usize, text: &[u8], fault: PolynomialFault) -> bool {
    match read(alloc, r, text) {
        Ok(_) => false,
        Err(own) => own == fault,
    }
}

fn form(column: u32, kind: FormKind) -> PolynomialFault {
    PolynomialFault::Form(FormFault {
        line: 7,
        column,
        kind,
    })
}

/// Lines in T(1) to T(16), and the texts of their values.
const VALUES: [(&str, &str); 38] = [
    ("0", "0"),
    ("-0", "0"),
    ("+5", "5"),
    ("-5", "-5"),
    ("32003", "0"),
    ("32002", "-1"),
    ("16001", "16001"),
    ("16002", "-16001"),
    ("-16001", "-16001"),
    ("999999999999999999", "14603"),
    ("184467440737095516", "-9704"),
    ("000000000000000001", "1"),
    ("T(1)", "T(1)"),
    ("T(01)", "T(1)"),
    ("T(0003)^0002", "T(3)^2"),
    ("T(16)", "T(16)"),
    ("T(1)^0", "1"),
    ("T(1)^1", "T(1)"),
    ("T(1)^64", "T(1)^64"),
    ("T(1)^63*T(1)", "T(1)^64"),
    ("T(1)^64*T(1)^0", "T(1)^64"),
    ("T(1)^64*T(2)^64", "T(1)^64*T(2)^64"),
    ("2*T(1)+3*T(1)", "5*T(1)"),
    ("T(1)-T(1)", "0"),
    ("T(1)*T(2)+T(2)*T(1)", "2*T(1)*T(2)"),
    ("T(2)*T(1)*T(2)", "T(1)*T(2)^2"),
    ("1*T(2)", "T(2)"),
    ("-1*T(2)", "-T(2)"),
    ("32002*T(2)", "-T(2)"),
    ("0*T(1)+T(2)", "T(2)"),
    (" - 3 * T( 2 ) ^ 2 * T(1)  +  4 ", "-3*T(1)*T(2)^2+4"),
    ("+T(1)", "T(1)"),
    ("1+T(3)+T(2)+T(1)", "T(1)+T(2)+T(3)+1"),
    ("T(1)*T(3)+T(2)^2", "T(2)^2+T(1)*T(3)"),
    ("T(3)^2-T(1)", "T(3)^2-T(1)"),
    (
        "T(1)*T(6)+T(3)*T(4)-T(2)*T(5)",
        "T(3)*T(4)-T(2)*T(5)+T(1)*T(6)",
    ),
    ("2-1", "1"),
    ("1-2", "-1"),
];

#[test]
fn lines_have_values(rt: HostRuntime) {
    let alloc = rt.alloc();
    for (text, printed) in VALUES {
        assert!(rt;
            prints(alloc, 16, text.as_bytes(), printed.as_bytes()),
            "at {text}"
        );
    }
}

/// Lines in T(1) to T(3), and the column of the byte that cannot follow.
const PLACES: [(&str, u32); 53] = [
    ("", 1),
    ("   ", 4),
    ("+", 2),
    ("+ ", 3),
    ("T(1)+", 6),
    ("T(1)+ ", 7),
    ("++1", 2),
    ("1+-2", 3),
    ("2T(1)", 2),
    ("2 T(1)", 3),
    ("2*3", 3),
    ("2*", 3),
    ("2* ", 4),
    ("2**T(1)", 3),
    ("*2", 1),
    ("T(1)*2", 6),
    ("T(1)T(2)", 5),
    ("T(1) T(2)", 6),
    ("T(1)2", 5),
    ("T (1)", 2),
    ("T", 2),
    ("T +1", 2),
    ("T+1", 2),
    ("Tx", 2),
    ("t(1)", 1),
    (" x", 2),
    ("1x", 2),
    ("1\t", 2),
    ("1\r", 2),
    ("T()", 3),
    ("T(", 3),
    ("T( )", 4),
    ("T(1", 4),
    ("T(1 2)", 5),
    ("T(1,2)", 4),
    ("T(a)", 3),
    ("T(-1)", 3),
    ("T(1)^", 6),
    ("T(1)^x", 6),
    ("T(1)^-2", 6),
    ("T(1)^2^3", 7),
    ("^2", 1),
    ("12 3", 4),
    ("1.5", 2),
    ("(T(1))", 1),
    ("T(12345)", 7),
    ("T(00001)", 7),
    ("T(1)^12345", 10),
    ("1234567890123456789", 19),
    (" 1234567890123456789x", 20),
    ("T(1)^64x", 8),
    ("T(1)^64*T(1)^0x", 15),
    ("T(1)^64*T(1)^", 14),
];

#[test]
fn bytes_that_cannot_follow_have_places(rt: HostRuntime) {
    let alloc = rt.alloc();
    for (text, column) in PLACES {
        assert!(rt;
            fails(alloc, 3, text.as_bytes(), form(column, FormKind::Syntax)),
            "at {text}"
        );
    }
}

/// How many variables there are, a line, and the column of a variable that is none of them.
const UNKNOWN: [(usize, &str, u32); 10] = [
    (3, "T(0)", 1),
    (3, "T(4)", 1),
    (16, "T(17)", 1),
    (3, "1+T(4)", 3),
    (3, "T(1)*T(4)", 6),
    (3, " T(4)x", 2),
    (3, "T(4x", 1),
    (3, "T(000", 1),
    (3, "T(9999)^99", 1),
    (0, "T(1)", 1),
];

/// Lines in T(1) to T(3), and the column of the term whose exponent passes 64.
const LARGE: [(&str, u32); 10] = [
    ("T(1)^65", 1),
    ("T(1)^9999", 1),
    ("T(1)^64*T(1)", 1),
    ("T(1)^64*T(1)x", 1),
    ("T(1)^65x", 1),
    ("  2*T(1)^65", 3),
    ("-T(1)^65", 2),
    ("1 - 3*T(1)^65", 5),
    ("T(1)^40*T(2)*T(1)^25", 1),
    ("T(1)^65+T(9)+x", 1),
];

#[test]
fn variables_and_exponents_have_limits(rt: HostRuntime) {
    let alloc = rt.alloc();
    for (r, text, column) in UNKNOWN {
        let fault = PolynomialFault::Variable { line: 7, column };
        assert!(rt; fails(alloc, r, text.as_bytes(), fault), "at {text}");
    }
    for (text, column) in LARGE {
        assert!(rt;
            fails(alloc, 3, text.as_bytes(), form(column, FormKind::Range)),
            "at {text}"
        );
    }
}

/// `1+` so many times, and then a text.
fn ones(alloc: Global, count: usize, end: &[u8]) -> Result<Vec<u8>, NoMemory> {
    let mut text = Vec::new(alloc);
    for _ in 0..count {
        text.push(b'1')?;
        text.push(b'+')?;
    }
    text.extend_from_slice(end)?;
    Ok(text)
}

#[test]
fn two_hundred_terms_are_enough(rt: HostRuntime) -> Result<(), Fail> {
    let alloc = rt.alloc();
    let most = ones(alloc, 199, b"1")?;
    assert!(rt; prints(alloc, 3, &most, b"200"));
    for end in ["1", "T(9)", "T", "1234567890123456789"] {
        let text = ones(alloc, 200, end.as_bytes())?;
        assert!(rt;
            fails(alloc, 3, &text, form(401, FormKind::Range)),
            "at {end}"
        );
    }
    for end in ["", "x", "*1"] {
        let text = ones(alloc, 200, end.as_bytes())?;
        assert!(rt;
            fails(alloc, 3, &text, form(401, FormKind::Syntax)),
            "at {end}"
        );
    }
    Ok(())
}

#[test]
fn values_have_terms(rt: HostRuntime) -> Result<(), Fail> {
    let alloc = rt.alloc();
    let Ok(p) = read(alloc, 3, b"5-2*T(1)*T(3)^2-7*T(3)") else {
        assert!(rt; false);
        return Ok(());
    };
    let third = Mono::power(2, 1).unwrap_or(Mono::one());
    let square = Mono::power(2, 2).unwrap_or(Mono::one());
    let first = Mono::power(0, 1).unwrap_or(Mono::one());
    let lead = first.times(&square).unwrap_or(Mono::one());
    assert_eq!(rt; p.term_count(), 3);
    assert_eq!(rt; p.coefficient(&lead), Fp::reduce(-2));
    assert_eq!(rt; p.coefficient(&third), Fp::reduce(-7));
    assert_eq!(rt; p.coefficient(&Mono::one()), Fp::reduce(5));
    Ok(())
}

#[test]
fn the_extra_variable_is_printed(rt: HostRuntime) -> Result<(), Fail> {
    let alloc = rt.alloc();
    let y = Mono::power(16, 1).unwrap_or(Mono::one());
    let last = Mono::power(15, 2).unwrap_or(Mono::one());
    let both = last.times(&y).unwrap_or(y);
    let sum = Poly::term(alloc, both, Fp::reduce(-1))?.add(
        alloc,
        &Poly::term(alloc, y.times(&y).unwrap_or(y), Fp::reduce(3))?,
    )?;
    let mut text = String::new(alloc);
    text.push_str("g ")?;
    append_poly(&mut text, &sum)?;
    assert_eq!(rt; text.as_str(), "g -T(16)^2*y+3*y^2");
    assert_eq!(rt;
        print_poly(alloc, &Poly::zero(alloc))?.as_slice(),
        b"0".as_slice()
    );
    Ok(())
}
