//! Texts worked by hand.
use super::*;
use git_grading::Grading;
use git_input::Input;
use git_ints::IVec;
use git_mono::Mono;
use git_polytext::print_poly;
use std::alloc::Global;
use std::test::*;

/// What the reader answers to a short text.
fn answer(alloc: Global, text: &[u8]) -> Result<Input, InputFault> {
    if text.len() > 2000 {
        return Err(InputFault::NoMemory);
    }
    read_input(alloc, text)
}

fn fault_of(alloc: Global, text: &[u8]) -> Option<InputFault> {
    answer(alloc, text).err()
}

fn has_columns(grading: &Grading, columns: &[&[i128]]) -> bool {
    if grading.columns().len() != columns.len() {
        return false;
    }
    for (found, wanted) in grading.columns().iter().zip(columns) {
        if found.as_slice() != *wanted {
            return false;
        }
    }
    true
}

fn has_generators(alloc: Global, input: &Input, texts: &[&[u8]]) -> bool {
    if input.generators.len() != texts.len() {
        return false;
    }
    for (found, wanted) in input.generators.iter().zip(texts) {
        match print_poly(alloc, found) {
            Ok(text) if text.as_slice() == *wanted => {}
            _ => return false,
        }
    }
    true
}

/// A text, the columns of its matrix, and its generators as they are printed.
type Value = (
    &'static [u8],
    &'static [&'static [i128]],
    &'static [&'static [u8]],
);

const PLANE: &[&[i128]] = &[&[1, 0], &[1, 1], &[0, 1]];

const TEXT: &[u8] = b"gitfan 1\ngrading 2 3\n1 1 0\n0 1 1\nideal 0\nend\n";

const VALUES: [Value; 8] = [
    (TEXT, PLANE, &[]),
    (
        b"  gitfan   1 \r\n grading 2  3\r\n1 1 0 \r\n 0 1 1\r\nideal 0 \r\nend\r\n",
        PLANE,
        &[],
    ),
    (
        b"gitfan 1\ngrading 02 3\n000000000000000001 1 -0\n0 007 01\nideal -0\nend",
        &[&[1, 0], &[1, 7], &[0, 1]],
        &[],
    ),
    (
        b"gitfan 1\ngrading 2 2\n-1000 1000\n1000 1000\nideal 0\nend\n",
        &[&[-1000, 1000], &[1000, 1000]],
        &[],
    ),
    (
        b"gitfan 1\ngrading 2 3\n1 1 0\n0 1 1\nideal 3\n T(1) *T(3)- T(2) \r\n0\r\n32003*T(1)\nend",
        PLANE,
        &[b"T(1)*T(3)-T(2)", b"0", b"0"],
    ),
    (
        b"gitfan 1\ngrading 1 2\n1 2\nideal 2\nT(1)^2-T(2)\n7\nend\n",
        &[&[1], &[2]],
        &[b"T(1)^2-T(2)", b"7"],
    ),
    (
        b"gitfan 1\ngrading 3 3\n1 0 0\n0 1 0\n0 0 1\nideal 1\n-T(1)\nend\n",
        &[&[1, 0, 0], &[0, 1, 0], &[0, 0, 1]],
        &[b"-T(1)"],
    ),
    (
        b"gitfan 1\ngrading 1 16\n1 1 1 1 1 1 1 1 1 1 1 1 1 1 1 1\nideal 1\nT(16)+T(1)\nend\n",
        &[
            &[1],
            &[1],
            &[1],
            &[1],
            &[1],
            &[1],
            &[1],
            &[1],
            &[1],
            &[1],
            &[1],
            &[1],
            &[1],
            &[1],
            &[1],
            &[1],
        ],
        &[b"T(1)+T(16)"],
    ),
];

#[test]
fn right_texts_are_read(rt: HostRuntime) {
    let alloc = rt.alloc();
    for (text, columns, generators) in VALUES {
        match answer(alloc, text) {
            Ok(input) => {
                assert!(rt; has_columns(&input.grading, columns));
                assert!(rt; has_generators(alloc, &input, generators));
            }
            Err(fault) => assert!(rt; false, "{fault:?}"),
        }
    }
    assert_eq!(rt; announced_variables(TEXT), 3);
}

#[test]
fn what_is_written_is_read_back(rt: HostRuntime) {
    let alloc = rt.alloc();
    for (text, columns, generators) in VALUES {
        let Ok(input) = answer(alloc, text) else {
            continue;
        };
        let Ok(written) = write_input(alloc, &input) else {
            continue;
        };
        match answer(alloc, &written) {
            Ok(again) => {
                assert!(rt; has_columns(&again.grading, columns));
                assert!(rt; has_generators(alloc, &again, generators));
            }
            Err(fault) => assert!(rt; false, "{fault:?}"),
        }
    }
}

#[test]
fn an_input_is_written_with_single_spaces(rt: HostRuntime) {
    let alloc = rt.alloc();
    let written = match answer(alloc, VALUES[4].0) {
        Ok(input) => write_input(alloc, &input),
        Err(_) => return assert!(rt; false),
    };
    let wanted =
        b"gitfan 1\ngrading 2 3\n1 1 0\n0 1 1\nideal 3\nT(1)*T(3)-T(2)\n0\n0\nend\n".as_slice();
    assert!(rt; written.is_ok_and(|text| text.as_slice() == wanted));
}

/// A text, and the line, the column and the kind of its first fault.
type Fault = (&'static [u8], u32, u32, BadKind);

/// Faults of the first two lines, and of lines that are not there.
const HEADS: [Fault; 24] = [
    (b"", 1, 1, BadKind::Truncated),
    (b"\n", 1, 1, BadKind::Header),
    (b"gitfan 2\n", 1, 1, BadKind::Header),
    (b"gitfan 01\n", 1, 1, BadKind::Header),
    (b"  gitfan 1 1\n", 1, 1, BadKind::Header),
    (b"gitfan\t1\n", 1, 1, BadKind::Header),
    (b"gitfan 1\r\r\n", 1, 1, BadKind::Header),
    (b"gitfan 1", 2, 1, BadKind::Truncated),
    (b"gitfan 1\n", 2, 1, BadKind::Truncated),
    (b"gitfan 1\n\n", 2, 1, BadKind::Syntax),
    (b"gitfan 1\n  \r\n", 2, 3, BadKind::Syntax),
    (b"gitfan 1\n grade 2 3\n", 2, 2, BadKind::Syntax),
    (b"gitfan 1\ngrading 7 17\n", 2, 9, BadKind::Range),
    (b"gitfan 1\ngrading 0 3\n", 2, 9, BadKind::Range),
    (b"gitfan 1\ngrading 2 17\n", 2, 11, BadKind::Range),
    (b"gitfan 1\ngrading 2  0 x\n", 2, 12, BadKind::Range),
    (b"gitfan 1\ngrading +2 3\n", 2, 9, BadKind::Number),
    (b"gitfan 1\ngrading 2 3x\n", 2, 11, BadKind::Number),
    (b"gitfan 1\ngrading 2", 2, 10, BadKind::Count),
    (b"gitfan 1\ngrading 2  \r\n", 2, 12, BadKind::Count),
    (b"gitfan 1\ngrading 2 3 0\n", 2, 13, BadKind::Count),
    (b"gitfan 1\ngrading 2 3\n", 3, 1, BadKind::Truncated),
    (b"gitfan 1\ngrading 2 3\n1 1 0\n", 4, 1, BadKind::Truncated),
    (
        b"gitfan 1\ngrading 2 3\n1 1 0\n0 1 1",
        5,
        1,
        BadKind::Truncated,
    ),
];

/// Faults of rows, of the matrix, of the number of generators and of the end.
const REST: [Fault; 26] = [
    (b"gitfan 1\ngrading 2 3\n1 1\n", 3, 4, BadKind::Count),
    (b"gitfan 1\ngrading 2 3\n1 1 0 0\n", 3, 7, BadKind::Count),
    (b"gitfan 1\ngrading 2 3\n1 1 0\n\n", 4, 1, BadKind::Count),
    (b"gitfan 1\ngrading 2 3\n1 1001 0\n", 3, 3, BadKind::Range),
    (b"gitfan 1\ngrading 2 3\n1 1 -1001\n", 3, 5, BadKind::Range),
    (
        b"gitfan 1\ngrading 2 3\n0000000000000000001 1 0\n",
        3,
        1,
        BadKind::Number,
    ),
    (b"gitfan 1\ngrading 2 3\n1 1 0\xa0\n", 3, 5, BadKind::Number),
    (b"gitfan 1\ngrading 2 3\n1 1\r 0\n", 3, 3, BadKind::Number),
    (
        b"gitfan 1\ngrading 2 2\n1 2\n0 0\nideals\n",
        4,
        1,
        BadKind::Rank,
    ),
    (
        b"gitfan 1\ngrading 2 2\n1 -1\n0 0\nideals\n",
        4,
        1,
        BadKind::Rank,
    ),
    (b"gitfan 1\ngrading 1 2\n0 0\n", 3, 1, BadKind::Rank),
    (
        b"gitfan 1\ngrading 3 2\n1 0\n0 1\n1 1\n",
        5,
        1,
        BadKind::Rank,
    ),
    (
        b"gitfan 1\ngrading 1 2\n1 -1\nideals\n",
        3,
        1,
        BadKind::Pointed,
    ),
    (b"gitfan 1\ngrading 1 2\n1 0", 3, 1, BadKind::Pointed),
    (
        b"gitfan 1\ngrading 2 3\n1 0 -1\n0 1 0\n",
        4,
        1,
        BadKind::Pointed,
    ),
    (
        b"gitfan 1\ngrading 2 3\n1 1 0\n0 1 1\nideals 0\n",
        5,
        1,
        BadKind::Syntax,
    ),
    (
        b"gitfan 1\ngrading 2 3\n1 1 0\n0 1 1\nideal\n",
        5,
        6,
        BadKind::Count,
    ),
    (
        b"gitfan 1\ngrading 2 3\n1 1 0\n0 1 1\nideal 65\n",
        5,
        7,
        BadKind::Range,
    ),
    (
        b"gitfan 1\ngrading 2 3\n1 1 0\n0 1 1\nideal 0 0\n",
        5,
        9,
        BadKind::Count,
    ),
    (
        b"gitfan 1\ngrading 2 3\n1 1 0\n0 1 1\nideal 0\n",
        6,
        1,
        BadKind::Truncated,
    ),
    (
        b"gitfan 1\ngrading 2 3\n1 1 0\n0 1 1\nideal 0\n end2\n",
        6,
        2,
        BadKind::Syntax,
    ),
    (
        b"gitfan 1\ngrading 2 3\n1 1 0\n0 1 1\nideal 0\nend end\n\n",
        6,
        5,
        BadKind::Count,
    ),
    (
        b"gitfan 1\ngrading 2 3\n1 1 0\n0 1 1\nideal 0\nend \r\r\n",
        6,
        5,
        BadKind::Count,
    ),
    (
        b"gitfan 1\ngrading 2 3\n1 1 0\n0 1 1\nideal 0\nend\n\n",
        7,
        1,
        BadKind::Trailing,
    ),
    (
        b"gitfan 1\ngrading 2 3\n1 1 0\n0 1 1\nideal 0\nend\r\nx",
        7,
        1,
        BadKind::Trailing,
    ),
    (
        b"gitfan 1\ngrading 2 3\n1 1 0\n0 1 1\nideal 1\nend\n",
        6,
        1,
        BadKind::Syntax,
    ),
];

/// Faults of polynomials and of what stands around them.
const POLYNOMIALS: [Fault; 12] = [
    (
        b"gitfan 1\ngrading 2 3\n1 1 0\n0 1 1\nideal 1\n",
        6,
        1,
        BadKind::Truncated,
    ),
    (
        b"gitfan 1\ngrading 2 3\n1 1 0\n0 1 1\nideal 1\n \r\n",
        6,
        2,
        BadKind::Syntax,
    ),
    (
        b"gitfan 1\ngrading 2 3\n1 1 0\n0 1 1\nideal 1\n2T(1)\n",
        6,
        2,
        BadKind::Syntax,
    ),
    (
        b"gitfan 1\ngrading 2 3\n1 1 0\n0 1 1\nideal 1\nT(1\r\n",
        6,
        4,
        BadKind::Syntax,
    ),
    (
        b"gitfan 1\ngrading 2 3\n1 1 0\n0 1 1\nideal 1\nT(4)\n",
        6,
        1,
        BadKind::Variable,
    ),
    (
        b"gitfan 1\ngrading 2 3\n1 1 0\n0 1 1\nideal 1\n2*T(0)\n",
        6,
        3,
        BadKind::Variable,
    ),
    (
        b"gitfan 1\ngrading 2 3\n1 1 0\n0 1 1\nideal 1\nT(1)^65\n",
        6,
        1,
        BadKind::Range,
    ),
    (
        b"gitfan 1\ngrading 2 3\n1 1 0\n0 1 1\nideal 1\n +T(1)^40*T(1)^25\n",
        6,
        3,
        BadKind::Range,
    ),
    (
        b"gitfan 1\ngrading 2 3\n1 1 0\n0 1 1\nideal 2\n0\nT(1)+\n",
        7,
        6,
        BadKind::Syntax,
    ),
    (
        b"gitfan 1\ngrading 2 3\n1 1 0\n0 1 1\nideal 2\n0\nend\n",
        7,
        1,
        BadKind::Syntax,
    ),
    (
        b"gitfan 1\ngrading 2 3\n1 1 0\n0 1 1\nideal 1\n0\n0\nend\n",
        7,
        1,
        BadKind::Syntax,
    ),
    (
        b"gitfan 1\ngrading 2 3\n1 1 0\n0 1 1\nideal 1\n0\n",
        7,
        1,
        BadKind::Truncated,
    ),
];

/// The place of the first text of a table whose fault is another one.
fn first_miss(alloc: Global, table: &[Fault]) -> Option<usize> {
    for (i, (text, line, column, kind)) in table.iter().enumerate() {
        let wanted = InputFault::Bad {
            line: *line,
            column: *column,
            kind: *kind,
        };
        if fault_of(alloc, text) != Some(wanted) {
            return Some(i);
        }
    }
    None
}

#[test]
fn the_first_fault_is_named(rt: HostRuntime) {
    let alloc = rt.alloc();
    assert_eq!(rt; first_miss(alloc, &HEADS), None);
    assert_eq!(rt; first_miss(alloc, &REST), None);
    assert_eq!(rt; first_miss(alloc, &POLYNOMIALS), None);
}

#[test]
fn monomials_of_two_degrees_are_named(rt: HostRuntime) {
    let alloc = rt.alloc();
    let variable = |i: usize| Mono::power(i, 1).unwrap_or(Mono::one());
    let product = variable(0).times(&variable(2)).unwrap_or(Mono::one());
    let bad = |line: u32, generator: u32, first: Mono, second: Mono| {
        Some(InputFault::Bad {
            line,
            column: 1,
            kind: BadKind::Homogeneous {
                generator,
                first,
                second,
            },
        })
    };
    assert_eq!(rt;
        fault_of(
            alloc,
            b"gitfan 1\ngrading 2 3\n1 1 0\n0 1 1\nideal 1\nT(1)+T(2)\n"
        ),
        bad(6, 1, variable(0), variable(1))
    );
    assert_eq!(rt;
        fault_of(
            alloc,
            b"gitfan 1\ngrading 2 3\n1 1 0\n0 1 1\nideal 2\n0\n 1 + T(3) + T(2) + T(1)*T(3)\n"
        ),
        bad(7, 2, product, variable(2))
    );
}

#[test]
fn a_text_that_is_cut_off_is_bad(rt: HostRuntime) {
    let alloc = rt.alloc();
    let text = TEXT;
    for end in 0..text.len() {
        let whole = end + 1 == text.len();
        assert_eq!(rt; fault_of(alloc, &text[..end]).is_none(), whole);
    }
}

/// What may follow an input's line feed at the end of its last line.
const TAILS: [&[u8]; 4] = [b"", b"gitfan-listing 1\n", b"\n", b"end\n"];

/// How many bytes an input at the head of a text takes.
fn head_of(alloc: Global, text: &[u8]) -> Option<usize> {
    if text.len() > 1000 {
        return None;
    }
    match read_input_front(alloc, text) {
        Ok((_, used)) => Some(used),
        Err(_) => None,
    }
}

#[test]
fn an_input_at_the_head_of_a_text_is_read(rt: HostRuntime) -> Result<(), Fail> {
    let alloc = rt.alloc();
    for tail in TAILS {
        let mut text = TEXT.to_vec(alloc)?;
        text.extend_from_slice(tail)?;
        assert!(rt; head_of(alloc, &text) == Some(TEXT.len()));
    }
    let open = &TEXT[..TEXT.len() - 1];
    assert!(rt; head_of(alloc, open) == Some(open.len()));
    assert!(rt; head_of(alloc, b"gitfan 2\n") == None);
    Ok(())
}
